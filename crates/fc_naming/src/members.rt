//! The members of groups with the words that they take.
ghost use Rattle.std.specs.Prelude.{◌≡◌, length, IfOk, IfSome};
ghost use Rattle.fc_syntax.specs.View.{binds_of, joins_of};
ghost use Rattle.fc_model.specs.NamelessView.{nexpr_of};
ghost use Rattle.fc_model.specs.DeclaredWords.{top_by, words_by_space};
ghost use Rattle.fc_scope.specs.ScopeWords.{locals_of, with_values};
ghost use Rattle.fc_naming.specs.Groups.{IsGroup};
ghost use Rattle.fc_naming.specs.GroupWords.{JoinWords, LetWords};
ghost use Rattle.fc_naming.specs.Taken.{words_around};

use crate::choose::{new_word, take_word};
use crate::taken::Space;
use crate::used::{used_in_join, used_in_let};
use fc_model::{Declared, Spaces};
use fc_scope::{Names, Scope};
use fc_syntax::{Memory, NBind, NExpr, NJoinBind, Seq, Text};
use std::alloc::Global;

/// A member of a group: a bind of a let, or a join point.
trait Member {
    /// The word that it was read with.
    fn hint(&self) -> &Text;
}

impl Member for NBind {
    fn hint(&self) -> &Text {
        &self.name
    }
}

impl Member for NJoinBind {
    fn hint(&self) -> &Text {
        &self.name
    }
}

/// The words of the members of a group.
#[derive(Drop)]
pub struct Group {
    /// The words, the outermost first.
    pub words: Seq<Text>,
    /// The same for look-ups.
    pub names: Names,
}

/// The words that members were read with, if each is new behind those before it: no word of a term in scope or of the module. It is the same
/// whether those before it are values or join points.
fn new_group<'x, M: Member>(
    alloc: Global,
    members: &[M],
    top: &Declared,
    scope: &'x Scope<'x>,
) -> Result<Option<Group>, Memory>
    ensures { IfOk result (λ o. IfSome o (λ r. IsGroup (words_around (top_by top.now) (locals_of scope.now)).terms members.now r.words r.names (words_around (top_by top.now) (with_values r.names (locals_of scope.now))).terms)) }
{
    let mut words = Seq::new(alloc);
    let mut names = Names::new(alloc);
    for member in members {
        let around = Scope::Values(&names, &*scope);
        let Some(word) = new_word(alloc, member.hint(), Space::Terms, top, &around)? else {
            return Ok(None);
        };
        names.add(alloc, &word)?;
        words.push(word)?;
    }
    Ok(Some(Group { words, names }))
}

/// The words of members, each not taken by a name in its scope or by a member before it.
fn named_group<M: Member>(alloc: Global, members: &[M], taken: &mut Spaces) -> Result<Group, Memory>
    ensures { IfOk result (λ r. IsGroup (words_by_space taken.old).terms members.now r.words r.names (words_by_space taken.new).terms) }
{
    let mut words = Seq::new(alloc);
    let mut names = Names::new(alloc);
    for member in members {
        let word = take_word(alloc, member.hint(), Space::Terms, taken)?;
        names.add(alloc, &word)?;
        words.push(word)?;
    }
    Ok(Group { words, names })
}

/// The words of a let's group.
pub fn let_words<'x>(
    alloc: Global,
    e: &NExpr,
    top: &Declared,
    scope: &'x Scope<'x>,
    recursive: bool,
    binds: &[NBind],
) -> Result<Group, Memory>
    ensures counted { IfOk result (λ g. length g.words ≡ length binds.now) }
    ensures around { IfOk result (λ g. LetWords (top_by top.now) (locals_of scope.now) recursive (binds_of binds.now) (nexpr_of e.now) g) }
{
    if let Some(kept) = new_group(alloc, binds, top, &*scope)? {
        return Ok(kept);
    }
    let mut used = used_in_let(alloc, e, top, &*scope, recursive, binds)?;
    let group = named_group(alloc, binds, &mut used)?;
    Ok(group)
}

/// The words of a group of join points.
pub fn point_words<'x>(
    alloc: Global,
    e: &NExpr,
    top: &Declared,
    scope: &'x Scope<'x>,
    recursive: bool,
    joins: &[NJoinBind],
) -> Result<Group, Memory>
    ensures counted { IfOk result (λ g. length g.words ≡ length joins.now) }
    ensures around { IfOk result (λ g. JoinWords (top_by top.now) (locals_of scope.now) recursive (joins_of joins.now) (nexpr_of e.now) g) }
{
    if let Some(kept) = new_group(alloc, joins, top, &*scope)? {
        return Ok(kept);
    }
    let mut used = used_in_join(alloc, e, top, &*scope, recursive, joins)?;
    let group = named_group(alloc, joins, &mut used)?;
    Ok(group)
}
