// Calls that are numbered from 1, of which chosen ones fail.
ghost use Rattle.std.specs.Prelude.{◌≡◌};
ghost use Rattle.fc_files.specs.Counts.{is_failing_call, next_count};

#[derive(Drop)]
pub(crate) struct NumberedCalls {
    fails: Vec<u64>,
    so_far: u64,
}

impl NumberedCalls {
    // No call so far, and those with the numbers in `fails` are to fail.
    pub(crate) fn new(fails: Vec<u64>) -> NumberedCalls
        ensures { result ≡ record { fails = fails; so_far = 0 } }
    {
        NumberedCalls { fails, so_far: 0 }
    }

    // Counts the next call, and says whether it fails. After 2^64 - 1 calls none fails.
    pub(crate) fn next_fails(&mut self) -> bool
        ensures answer { result ≡ is_failing_call self.old.so_far self.old.fails.items }
        ensures so_far { self.new ≡ record self.old { so_far = next_count self.old.so_far } }
    {
        if self.so_far == u64::MAX {
            return false;
        }
        self.so_far += 1;
        self.fails.contains(&self.so_far)
    }
}
