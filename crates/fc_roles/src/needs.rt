//! Roles, and the needs that are noted so far.
ghost use Rattle.std.specs.Prelude.{◌≡◌, ◌<◌, ℕ, nat_eq, if◌then◌else◌, length, get_or, IfOk};
ghost use Rattle.fc_syntax.specs.declared.ty.Role.TheVariants.{P};
ghost use Rattle.fc_model.specs.Needs as words;
ghost use Rattle.fc_roles.specs.NeedViews.{need_at};

use fc_syntax::{Memory, Role};
use std::alloc::Global;

/// The first of two roles in the order N, R, P.
fn least(left: Role, right: Role) -> Role
    ensures { result ≡ words.least left right }
{
    if left.below(right) { left } else { right }
}

/// The role of a part that stands at the inner role in what stands at the outer one. Takes no memory.
pub fn role_within(outer: Role, inner: Role) -> Role
    ensures { result ≡ words.role_within outer inner }
{
    match outer {
        Role::N => Role::N,
        Role::R => inner,
        Role::P => Role::P,
    }
}

/// Notes that the parameter at a distance occurs at a role. A distance beyond the parameters is none of them.
#[tactic(auto, using(crate::proofs::Roles::note_rules))]
pub fn note(needs: &mut [Role], distance: usize, role: Role)
    ensures length { length needs.new ≡ length needs.old }
    ensures noted { (i : ℕ) → i < length needs.new → get_or needs.new i P ≡ words.least (get_or needs.old i P) (if nat_eq i distance then role else P) }
{
    if distance < needs.len() {
        needs[distance] = least(needs[distance], role);
    }
}

/// The needs of the parameters of a declaration.
#[derive(Drop)]
pub struct Needs {
    by_distance: Vec<Role>,
}

impl Needs {
    /// The needs of so many parameters that occur nowhere.
    pub(crate) fn of_nothing(alloc: Global, count: usize) -> Result<Vec<Role>, Memory>
        ensures length { IfOk result (λ needs. length needs.items ≡ count) }
        ensures nothing { IfOk result (λ needs. (i : ℕ) → get_or needs.items i P ≡ P) }
    {
        let mut needs = Vec::new(alloc);
        for _ in 0..count {
            needs.push(Role::P)?;
        }
        Ok(needs)
    }

    pub(crate) fn from_noted(by_distance: Vec<Role>) -> Needs
        ensures { (i : ℕ) → need_at result i ≡ get_or by_distance.items i P }
    {
        Needs { by_distance }
    }

    /// The need of the parameter at a distance: 0 for the last one. Takes no memory.
    pub fn of(&self, distance: usize) -> Role
        ensures { result ≡ need_at self.now distance }
    {
        match self.by_distance.get(distance) {
            Some(role) => *role,
            None => Role::P,
        }
    }
}
