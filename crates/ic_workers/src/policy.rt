//! How work is shared among threads. Whatever is chosen, what is reached is what the contracts say.

ghost use Rattle.std.specs.Prelude.{◌≡◌, ◌*◌, ◌/◌, ◌<◌, ◌≤◌, max, min};

/// How work is shared among threads.
#[derive(Clone, Copy)]
pub struct Policy {
    /// Threads at most, and at least one.
    pub workers: usize,
    /// Parts that are made first.
    pub parts: usize,
    /// Interactions of one thread before the net is divided, and of a part before it is divided first. Later it makes a
    /// quarter of those that it has made.
    pub early: u64,
    /// No further parts are made first where a part would make more before it is divided.
    pub late: u64,
    /// One of so many pending pairs is shared.
    pub share: usize,
    /// Fewer nodes are below the pairs of a part that are shared as first parts are made.
    pub light: usize,
    /// Parts share until so many have much to do.
    pub wanted: usize,
    /// Interactions of a worker in a step at first.
    pub budget: u64,
    /// They grow to one of so many of those that a worker has made in the mean.
    pub growth: u64,
    /// How far they grow.
    pub most: u64,
    /// Interactions of a worker in a step where fewer parts than workers have something to do.
    pub small: u64,
    /// A part that made so many interactions in its last step has much to do, if it has something to do.
    pub busy: u64,
    /// Of 100 that a thread does beside another one, one thread would do so much in the same time.
    pub worth: u64,
    /// Nanoseconds that may be lost by taking steps.
    pub loss: u64,
    /// One of so many of those that steps took may be lost, too.
    pub trust: u64,
    /// Interactions that are expected of the run, or 0 where none are known.
    pub expected: u64,
    /// A large net is divided by its nodes where so many interactions are expected for each of them.
    pub spread: u64,
    /// Parts into which it is divided so.
    pub large: usize,
}

impl Policy {
    /// What measuring has shown to be best for so many threads.
    pub fn of(workers: u32) -> Policy
        ensures { result ≡ record {
          workers = max workers 1;
          parts = max (6 * max workers 1) 24;
          early = 100;
          late = 2500;
          share = 8;
          light = 4000;
          wanted = 2 * max workers 1;
          budget = 200000;
          growth = 16;
          most = 1000000;
          small = 20000;
          busy = 1000;
          worth = 70;
          loss = 2000000;
          trust = 16;
          expected = 0;
          spread = 16;
          large = 3 * max workers 1;
        } }
    {
        let workers = workers.max(1) as usize;
        Policy {
            workers,
            parts: (6 * workers).max(24),
            early: 100,
            late: 2_500,
            share: 8,
            light: 4_000,
            wanted: 2 * workers,
            budget: 200_000,
            growth: 16,
            most: 1_000_000,
            small: 20_000,
            busy: 1_000,
            worth: 70,
            loss: 2_000_000,
            trust: 16,
            expected: 0,
            spread: 16,
            large: 3 * workers,
        }
    }

    /// The same for a run of which so many interactions are expected.
    pub fn expecting(self, interactions: u64) -> Policy
        ensures { result ≡ record self { expected = interactions } }
    {
        let mut policy = self;
        policy.expected = interactions;
        policy
    }

    /// How many nodes each part gets of a net of so many that is divided by them, or 0 where it isn't: where parts would be
    /// light, or too few interactions are expected.
    pub fn nodes_each(&self, nodes: u64) -> u64
        ensures light { nodes / max self.now.large 1 < self.now.light → result ≡ 0 }
        ensures short { self.now.expected / max self.now.spread 1 < nodes → result ≡ 0 }
        ensures each { self.now.light ≤ nodes / max self.now.large 1
            → nodes ≤ self.now.expected / max self.now.spread 1
            → result ≡ nodes / max self.now.large 1 }
    {
        let each = nodes / (self.large as u64).max(1);
        if each < self.light as u64 || self.expected / self.spread.max(1) < nodes {
            return 0;
        }
        each
    }

    /// Interactions of a worker in the next step, after so many in all, where so many parts have something to do. A short
    /// reduction takes short steps, so that its pairs are shared soon, and a long one takes long steps, so that threads
    /// are begun seldom.
    pub fn interactions_after(&self, made: u64, due: usize) -> u64
        ensures small { due < self.now.workers → result ≡ self.now.small }
        ensures grown { self.now.workers ≤ due → result
            ≡ min (max (made / max self.now.workers 1 / max self.now.growth 1) self.now.budget)
            self.now.most }
    {
        if due < self.workers {
            return self.small;
        }
        let mean = made / (self.workers as u64).max(1);
        (mean / self.growth.max(1)).max(self.budget).min(self.most)
    }
}
