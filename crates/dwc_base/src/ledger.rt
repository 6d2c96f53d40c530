//! Counts of steps, by which a search tells how much work it did.
ghost use Rattle.std.specs.Prelude.{◌≡◌, ℕ};
ghost use Rattle.dwc_base.specs.Ledgers.{one_more, last_count};

/// What counts. Its number rises by one with each call, up to 2^64 - 1, and then stays.
pub trait Ledger: Drop {
    /// How often it was called, up to 2 ^ 64 - 1.
    ghost number: { Self → ℕ };

    /// Counts one more.
    fn one(&mut self)
        ensures { number self.new ≡ one_more (number self.old) };
}

/// Steps that a ledger counts.
#[derive(Drop)]
pub struct Steps<L: Ledger> {
    ledger: L,
}

impl<L: Ledger> Steps<L> {
    /// Steps that are counted on in a ledger.
    pub fn new(ledger: L) -> Steps<L>
        ensures { result.ledger ≡ ledger }
    {
        Steps { ledger }
    }

    /// One step more.
    pub fn tick(&mut self)
        ensures { L.number self.new.ledger ≡ one_more (L.number self.old.ledger) }
    {
        self.ledger.one();
    }

    /// The ledger, with the steps so far.
    pub fn ledger(&self) -> &L
        ensures { result.now ≡ self.now.ledger }
    {
        &self.ledger
    }
}

/// A ledger that keeps its number.
#[derive(Drop)]
pub struct Counting {
    count: u64,
}

impl Counting {
    /// One that was not called yet.
    pub fn new() -> Counting
        ensures { result.count ≡ 0 }
    {
        Counting { count: 0 }
    }

    /// Its number.
    pub fn count(&self) -> u64
        ensures { result ≡ self.now.count }
    {
        self.count
    }
}

impl Ledger for Counting {
    ghost number = { λ counting. counting.count };

    fn one(&mut self) {
        self.count = self.count.saturating_add(1);
    }
}

/// A ledger that keeps nothing: it stands at the last number, where a count stays, and takes no time.
#[derive(Drop)]
pub struct Silent;

impl Silent {
    /// One that stands at the last number.
    pub fn new() -> Silent {
        Silent
    }
}

impl Ledger for Silent {
    ghost use Rattle.dwc_base.specs.Ledgers.{last_count};

    ghost number = { λ _. last_count };

    fn one(&mut self) {}
}
