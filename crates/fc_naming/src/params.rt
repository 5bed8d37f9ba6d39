//! The parameters of declarations, which have words of their own.
ghost use Rattle.std.specs.Prelude.{IfOk};
ghost use Rattle.fc_syntax.specs.Hints.{param_hint, plain_hint};
ghost use Rattle.fc_syntax.specs.View.{params_of, plains_of};
ghost use Rattle.fc_model.specs.Worded.{bare_param, bare_plain};
ghost use Rattle.fc_naming.specs.Declarations.{HaveWords};

use crate::choose::take_word;
use crate::taken::Space;
use fc_model::Spaces;
use fc_scope::Names;
use fc_syntax::{Memory, Param, Plain, Seq};
use std::alloc::Global;

/// Parameters with words of their own.
#[derive(Drop)]
pub struct OwnParams {
    /// The parameters.
    pub params: Seq<Param>,
    /// Their words.
    pub names: Names,
}

/// The same without roles.
#[derive(Drop)]
pub struct OwnPlains {
    /// The parameters.
    pub params: Seq<Plain>,
    /// Their words.
    pub names: Names,
}

/// Parameters, each with its word, or another one where a parameter before it has that.
pub fn own_params(alloc: Global, params: &[Param]) -> Result<OwnParams, Memory>
    ensures { IfOk result (λ r. HaveWords param_hint bare_param (params_of params.now) (params_of r.params) r.names) }
{
    let mut taken = Spaces::new(alloc);
    let mut names = Names::new(alloc);
    let mut out = Seq::new(alloc);
    for param in params {
        let name = take_word(alloc, &param.name, Space::Types, &mut taken)?;
        let kind = param.kind.copy(alloc)?;
        names.add(alloc, &name)?;
        out.push(Param {
            name,
            kind,
            role: param.role,
        })?;
    }
    Ok(OwnParams { params: out, names })
}

/// The same of parameters without roles.
pub fn own_plains(alloc: Global, plains: &[Plain]) -> Result<OwnPlains, Memory>
    ensures { IfOk result (λ r. HaveWords plain_hint bare_plain (plains_of plains.now) (plains_of r.params) r.names) }
{
    let mut taken = Spaces::new(alloc);
    let mut names = Names::new(alloc);
    let mut out = Seq::new(alloc);
    for plain in plains {
        let name = take_word(alloc, &plain.name, Space::Types, &mut taken)?;
        let kind = plain.kind.copy(alloc)?;
        names.add(alloc, &name)?;
        out.push(Plain { name, kind })?;
    }
    Ok(OwnPlains { params: out, names })
}
