// Counts calls, and says which of them fail.
ghost use Rattle.std.specs.Prelude.{◌≡◌, ◌≤◌, ◌↔◌, IsTrue};
ghost use Rattle.std.specs.Bool.{OnTrue, OnFalse};
ghost use Rattle.bl_shelf.specs.Causes.{next_count};

#[derive(Drop)]
pub(crate) struct Meter {
    fails: Vec<u64>,
    calls: u64,
    faults: u64,
}

impl Meter {
    ghost use Rattle.bl_shelf.specs.Meter.{calls_of, faults_of, fails_of, IsDueAt};

    pub fn new(fails: Vec<u64>) -> Self
        ensures fails { fails_of result ≡ fails.items }
        ensures calls { calls_of result ≡ 0 }
        ensures faults { faults_of result ≡ 0 }
    {
        Meter {
            fails,
            calls: 0,
            faults: 0,
        }
    }

    // Counts a call. It answers whether the call is to fail.
    pub fn is_due(&mut self) -> bool
        ensures due { IsTrue result ↔ IsDueAt self.old }
        ensures fails { fails_of self.new ≡ fails_of self.old }
        ensures calls { calls_of self.new ≡ next_count (calls_of self.old) }
        ensures faults { faults_of self.new ≡ faults_of self.old }
    {
        let due = self.fails.contains(&self.calls);
        self.calls = self.calls.saturating_add(1);
        due
    }

    // Counts a fault.
    pub fn fail(&mut self)
        ensures fails { fails_of self.new ≡ fails_of self.old }
        ensures calls { calls_of self.new ≡ calls_of self.old }
        ensures faults { faults_of self.new ≡ next_count (faults_of self.old) }
        ensures later { faults_of self.old ≤ faults_of self.new }
    {
        self.faults = self.faults.saturating_add(1);
    }
}
