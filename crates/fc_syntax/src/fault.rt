//! Out of memory, and faults with their places.
ghost use Rattle.std.specs.Prelude.{◌≡◌};
ghost use Rattle.fc_syntax.specs.declared.fault.Refusal.TheVariants.{Memory as refused_memory};
ghost use Rattle.fc_syntax.specs.Faults.{fault_number, fault_word};

use crate::seq::Seq;
use crate::text::Text;
use std::alloc::{AllocError, AllocFailed};
use thiserror::Error;

/// Out of memory. A call that answers it leaves what it borrowed as it was, unless it says otherwise.
#[derive(Debug, Drop, Error)]
#[error("out of memory")]
pub struct Memory;

impl From<AllocError> for Memory {
    fn from(_e: AllocError) -> Memory {
        Memory
    }
}

impl<T: Drop> From<AllocFailed<T>> for Memory {
    fn from(_e: AllocFailed<T>) -> Memory {
        Memory
    }
}

/// Where a fault stands.
#[derive(Debug, Drop)]
pub enum Place {
    /// At no piece.
    Nowhere,
    /// At a byte of a file, counted from 0; the length of the file where the file ends too early.
    Byte(u32),
    /// At a piece of a declaration: the part numbers on the way to it, counted from 0, the outermost first.
    Parts(Seq<u32>),
}

/// What is wrong: one variant for each premise that may fail.
#[derive(Clone, Copy, Debug, PartialEq, Eq)]
pub enum FaultKind {
    /// 1: a byte outside ASCII's printable bytes and white space.
    BadByte,
    /// 2: a word of no form.
    BadToken,
    /// 3: a token at which the form cannot go on.
    BadForm,
    /// 4: a declaration or brackets nested too deep.
    TooDeep,
    /// 5: a file of too many bytes.
    TooLong,
    /// 6: a declaration that makes the set, or itself, too large.
    TooMany,
    /// 7: a literal beyond 64 bits.
    LiteralRange,
    /// 10: a file that is not there.
    Missing,
    /// 11: two modules of one name.
    DuplicateModule,
    /// 12: an import that is not in the set.
    ImportUnknown,
    /// 13: modules that import each other in a circle.
    ImportCycle,
    /// 14: more files than a set may have.
    TooManyModules,
    /// 20: a word that is not in scope.
    Unbound,
    /// 21: a word that is bound twice.
    Duplicate,
    /// 22: a word that its module neither exports nor hides.
    NotExported,
    /// 23: an exported or hidden word without a declaration.
    ExportUnknown,
    /// 30: an argument of another kind than its head takes.
    KindMismatch,
    /// 31: a type that is not of the kind of values.
    NotAType,
    /// 32: a family at too few arguments.
    FamilyArity,
    /// 33: a type variable whose kind has `#`.
    UnliftedVariable,
    /// 34: a parameter's role that its fields do not permit.
    RoleTooWeak,
    /// 40: coercions whose ends do not meet.
    EndsDiffer,
    /// 41: a coercion at another role.
    RoleWrong,
    /// 42: a coercion that cannot be taken apart.
    NotInjective,
    /// 43: a part number beyond the parts.
    NthRange,
    /// 44: an axiom at another number of arguments.
    AxiomArity,
    /// 45: ends of two kinds.
    KindsDiffer,
    /// 50: an argument of another type.
    ArgType,
    /// 51: an application of what is no function.
    NotFunction,
    /// 52: a type given to what takes none.
    NotForall,
    /// 53: an unlifted argument that is neither a literal nor a variable.
    UnliftedNotAtom,
    /// 54: a cast from another type.
    CastFrom,
    /// 55: an alternative of another type.
    AltType,
    /// 56: an alternative out of order.
    AltOrder,
    /// 57: an alternative for a constructor of another type.
    AltConstructor,
    /// 58: a constructor with other arguments than it declares.
    ConArity,
    /// 59: a case binder of another type than the scrutinee.
    ScrutineeType,
    /// 60: a jump to a join point that is not in tail reach.
    JumpNotTail,
    /// 61: a jump with other arguments than its join point takes.
    JumpArity,
    /// 62: a type that leaves the scope of its variable.
    EscapingType,
    /// 63: a definition whose right side has another type.
    DefType,
    /// 64: a binding whose right side has another type.
    LetType,
    /// 65: a primitive with other than two operands.
    PrimArity,
    /// 66: a literal alternative at another type than `Int#`.
    LitAlt,
    /// 67: a definition of an unlifted type.
    UnliftedTop,
}

impl FaultKind {
    /// The number of the fault, as it stands in the line of a refusal. Takes no memory.
    pub fn number(&self) -> u8
        ensures { result ≡ fault_number self.now }
    {
        match self {
            FaultKind::BadByte => 1,
            FaultKind::BadToken => 2,
            FaultKind::BadForm => 3,
            FaultKind::TooDeep => 4,
            FaultKind::TooLong => 5,
            FaultKind::TooMany => 6,
            FaultKind::LiteralRange => 7,
            FaultKind::Missing => 10,
            FaultKind::DuplicateModule => 11,
            FaultKind::ImportUnknown => 12,
            FaultKind::ImportCycle => 13,
            FaultKind::TooManyModules => 14,
            FaultKind::Unbound => 20,
            FaultKind::Duplicate => 21,
            FaultKind::NotExported => 22,
            FaultKind::ExportUnknown => 23,
            FaultKind::KindMismatch => 30,
            FaultKind::NotAType => 31,
            FaultKind::FamilyArity => 32,
            FaultKind::UnliftedVariable => 33,
            FaultKind::RoleTooWeak => 34,
            FaultKind::EndsDiffer => 40,
            FaultKind::RoleWrong => 41,
            FaultKind::NotInjective => 42,
            FaultKind::NthRange => 43,
            FaultKind::AxiomArity => 44,
            FaultKind::KindsDiffer => 45,
            FaultKind::ArgType => 50,
            FaultKind::NotFunction => 51,
            FaultKind::NotForall => 52,
            FaultKind::UnliftedNotAtom => 53,
            FaultKind::CastFrom => 54,
            FaultKind::AltType => 55,
            FaultKind::AltOrder => 56,
            FaultKind::AltConstructor => 57,
            FaultKind::ConArity => 58,
            FaultKind::ScrutineeType => 59,
            FaultKind::JumpNotTail => 60,
            FaultKind::JumpArity => 61,
            FaultKind::EscapingType => 62,
            FaultKind::DefType => 63,
            FaultKind::LetType => 64,
            FaultKind::PrimArity => 65,
            FaultKind::LitAlt => 66,
            FaultKind::UnliftedTop => 67,
        }
    }

    /// The word of the fault, as it stands in the line of a refusal: the name of its variant. Takes no memory.
    pub fn word(&self) -> &'static str
        ensures { result.now ≡ fault_word self.now }
    {
        match self {
            FaultKind::BadByte => "BadByte",
            FaultKind::BadToken => "BadToken",
            FaultKind::BadForm => "BadForm",
            FaultKind::TooDeep => "TooDeep",
            FaultKind::TooLong => "TooLong",
            FaultKind::TooMany => "TooMany",
            FaultKind::LiteralRange => "LiteralRange",
            FaultKind::Missing => "Missing",
            FaultKind::DuplicateModule => "DuplicateModule",
            FaultKind::ImportUnknown => "ImportUnknown",
            FaultKind::ImportCycle => "ImportCycle",
            FaultKind::TooManyModules => "TooManyModules",
            FaultKind::Unbound => "Unbound",
            FaultKind::Duplicate => "Duplicate",
            FaultKind::NotExported => "NotExported",
            FaultKind::ExportUnknown => "ExportUnknown",
            FaultKind::KindMismatch => "KindMismatch",
            FaultKind::NotAType => "NotAType",
            FaultKind::FamilyArity => "FamilyArity",
            FaultKind::UnliftedVariable => "UnliftedVariable",
            FaultKind::RoleTooWeak => "RoleTooWeak",
            FaultKind::EndsDiffer => "EndsDiffer",
            FaultKind::RoleWrong => "RoleWrong",
            FaultKind::NotInjective => "NotInjective",
            FaultKind::NthRange => "NthRange",
            FaultKind::AxiomArity => "AxiomArity",
            FaultKind::KindsDiffer => "KindsDiffer",
            FaultKind::ArgType => "ArgType",
            FaultKind::NotFunction => "NotFunction",
            FaultKind::NotForall => "NotForall",
            FaultKind::UnliftedNotAtom => "UnliftedNotAtom",
            FaultKind::CastFrom => "CastFrom",
            FaultKind::AltType => "AltType",
            FaultKind::AltOrder => "AltOrder",
            FaultKind::AltConstructor => "AltConstructor",
            FaultKind::ConArity => "ConArity",
            FaultKind::ScrutineeType => "ScrutineeType",
            FaultKind::JumpNotTail => "JumpNotTail",
            FaultKind::JumpArity => "JumpArity",
            FaultKind::EscapingType => "EscapingType",
            FaultKind::DefType => "DefType",
            FaultKind::LetType => "LetType",
            FaultKind::PrimArity => "PrimArity",
            FaultKind::LitAlt => "LitAlt",
            FaultKind::UnliftedTop => "UnliftedTop",
        }
    }
}

/// The first premise of a set that does not hold.
#[derive(Debug, Drop)]
pub struct Fault {
    /// What is wrong.
    pub kind: FaultKind,
    /// The module; the name of the file where the fault comes before its module is known: one of its bytes, form or limits, a file
    /// that is missing, and more files than a set may have.
    pub module: Text,
    /// The word of the declaration, where the fault stands in one.
    pub def: Option<Text>,
    /// Where it stands.
    pub path: Place,
}

/// Why a call gives no answer.
#[derive(Debug, Drop, Error)]
pub enum Refusal {
    /// The input has a fault.
    #[error("refused")]
    Fault(Fault),
    /// Out of memory; nothing is said of the input.
    #[error("out of memory")]
    Memory,
}

impl From<Memory> for Refusal {
    ghost from_gives = { λ _ e. e ≡ refused_memory };

    fn from(_e: Memory) -> Refusal {
        Refusal::Memory
    }
}
