//! The kinds of names, told from their declarations.
ghost use Rattle.std.specs.Prelude.{◌≡◌, Some, IfOk, OnOk};
ghost use Rattle.fc_syntax.specs.Tree.{KStar};
ghost use Rattle.fc_syntax.specs.View.{kind_of};
ghost use Rattle.fc_model.specs.Kinding.{arrows, param_kinds};
ghost use Rattle.fc_model.specs.NamelessView.{ndecl_of, nparams_of, nplains_of};
ghost use Rattle.fc_type_table.specs.Names.{name_of};
ghost use Rattle.fc_type_table.specs.Nodes.{Extends, Judges};
ghost use Rattle.fc_type_table.specs.Trees.{LCon};
ghost use Rattle.fc_type_table.specs.TypeTables.{IsKindId, kind_shown, modules_in, nodes_of};
ghost use Rattle.fc_type_table.specs.Told.{Declares};

use crate::node::{Judged, NameKey, TypeId};
use crate::table::TypeTable;
use fc_syntax::{Kind, Memory, NDecl, Param, Plain};

impl TypeTable<'_> {
    /// The kind of a data type or a newtype with these parameters.
    fn kind_over_params(&mut self, params: &[Param]) -> Result<TypeId, Memory>
        ensures valid { IfOk result (λ id. IsKindId self.new id) }
        ensures view { IfOk result (λ id. kind_shown self.new id ≡ arrows (param_kinds (nparams_of params.now)) KStar) }
        ensures extends { OnOk result (Extends (nodes_of self.old) (nodes_of self.new)) }
        ensures modules { OnOk result (modules_in self.new ≡ modules_in self.old) }
    {
        let mut kind = self.star()?;
        let mut count = params.len();
        while count > 0 {
            count -= 1;
            let from = self.put_kind(&params[count].kind, 0)?;
            kind = self.arrow(from, kind)?;
        }
        Ok(kind)
    }

    /// The kind of a family with these parameters and results of this kind.
    fn kind_over_plains(&mut self, params: &[Plain], of: &Kind) -> Result<TypeId, Memory>
        ensures valid { IfOk result (λ id. IsKindId self.new id) }
        ensures view { IfOk result (λ id. kind_shown self.new id ≡ arrows (nplains_of params.now) (kind_of of.now)) }
        ensures extends { OnOk result (Extends (nodes_of self.old) (nodes_of self.new)) }
        ensures modules { OnOk result (modules_in self.new ≡ modules_in self.old) }
    {
        let mut kind = self.put_kind(of, 0)?;
        let mut count = params.len();
        while count > 0 {
            count -= 1;
            let from = self.put_kind(&params[count].kind, 0)?;
            kind = self.arrow(from, kind)?;
        }
        Ok(kind)
    }

    /// What is told of the type of a declaration.
    #[tactic(auto, using(fc_syntax::proofs::View::view_rules))]
    fn judge_declared(&mut self, decl: &NDecl) -> Result<Judged, Memory>
        ensures judged { IfOk result (λ j. Declares (nodes_of self.new) (Some (ndecl_of decl.now)) j) }
        ensures extends { OnOk result (Extends (nodes_of self.old) (nodes_of self.new)) }
        ensures modules { OnOk result (modules_in self.new ≡ modules_in self.old) }
    {
        match decl {
            NDecl::DataType(_, params, _) => {
                let kind = self.kind_over_params(params.as_slice())?;
                Ok(Judged::whole(Some(kind)))
            }
            NDecl::NewType(_, params, _, _) => {
                let kind = self.kind_over_params(params.as_slice())?;
                Ok(Judged::whole(Some(kind)))
            }
            NDecl::Family(_, params, kind) => {
                let params = params.as_slice();
                if params.len() > u32::MAX as usize {
                    return Err(Memory);
                }
                let kind = self.kind_over_plains(params, kind)?;
                Ok(Judged {
                    lifted: false,
                    needed: params.len() as u32,
                    kind: Some(kind),
                })
            }
            NDecl::Axiom(_, _, _, _) => Ok(Judged::whole(None)),
            NDecl::Def(_, _, _) => Ok(Judged::whole(None)),
            NDecl::Wrap(_, _, _) => Ok(Judged::whole(None)),
        }
    }

    /// What is told of a name.
    pub(crate) fn judge_name(&mut self, name: &NameKey) -> Result<Judged, Memory>
        ensures judged { IfOk result (λ j. Judges (modules_in self.new) (nodes_of self.new) (LCon (name_of name.now)) j) }
        ensures extends { OnOk result (Extends (nodes_of self.old) (nodes_of self.new)) }
        ensures modules { OnOk result (modules_in self.new ≡ modules_in self.old) }
    {
        match self.declared(name) {
            None => Ok(Judged::whole(None)),
            Some(decl) => self.judge_declared(decl),
        }
    }
}
