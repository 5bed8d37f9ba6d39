//! Which definitions are searched again: those that mention one that has changed, since they may know it now. Nothing rests on this: where all are searched once more and no step is
//! taken, the phase ends, whichever waited before.
use fc_reaching::mentions_of_each;
use fc_syntax::{Memory, NModule, Seq};
use std::alloc::Global;
use std::collections::BTreeSet;

/// The definitions that wait to be searched again.
#[derive(Drop)]
pub(crate) struct Waiting {
    /// For each declaration, the numbers of those that mention it, each as often as it does.
    users: Vec<Vec<usize>>,
    /// The numbers of those that wait.
    numbers: BTreeSet<usize>,
}

/// So many empty lists.
fn empty_lists(alloc: Global, count: usize) -> Result<Vec<Vec<usize>>, Memory> {
    let mut lists = Vec::new(alloc);
    for _ in 0..count {
        lists.push(Vec::new(alloc))?;
    }
    Ok(lists)
}

/// Puts a number into the list of each one that it mentions.
fn add_user(users: &mut [Vec<usize>], mentioned: &[usize], user: usize) -> Result<(), Memory> {
    for number in mentioned {
        if let Some(list) = users.get_mut(*number) {
            list.push(user)?;
        }
    }
    Ok(())
}

/// For each number those that mention it, where this is what each mentions.
fn users_of(alloc: Global, mentions: &[Seq<usize>]) -> Result<Vec<Vec<usize>>, Memory> {
    let mut users = empty_lists(alloc, mentions.len())?;
    for (user, mentioned) in mentions.iter().enumerate() {
        add_user(users.as_mut_slice(), mentioned.as_slice(), user)?;
    }
    Ok(users)
}

/// For each declaration of the first of some modules those that mention it.
fn users_in(alloc: Global, modules: &[NModule]) -> Result<Vec<Vec<usize>>, Memory> {
    match modules.first() {
        Some(module) => {
            let mentions = mentions_of_each(alloc, module)?;
            users_of(alloc, mentions.as_slice())
        }
        None => Ok(Vec::new(alloc)),
    }
}

impl Waiting {
    /// Those wait that mention one of these numbers in the first of some modules.
    pub(crate) fn new(
        alloc: Global,
        modules: &[NModule],
        changed: &[usize],
    ) -> Result<Waiting, Memory> {
        let mut waiting = Waiting {
            users: users_in(alloc, modules)?,
            numbers: BTreeSet::new(alloc),
        };
        for number in changed {
            waiting.wake(*number)?;
        }
        Ok(waiting)
    }

    /// Lets those wait that mention a definition.
    pub(crate) fn wake(&mut self, number: usize) -> Result<(), Memory> {
        if let Some(users) = self.users.get(number) {
            for user in users.iter() {
                self.numbers.insert(*user)?;
            }
        }
        Ok(())
    }

    /// The first one that waits, which waits no longer.
    pub(crate) fn next(&mut self) -> Option<usize> {
        self.numbers.pop_first()
    }
}
