// Clients, kinds of rank, and which client stands above which.
#![tactic(auto)]

ghost use Rattle.std.specs.Prelude.{◌≡◌, Bool};
ghost use Rattle.ranks.specs.Kinds.{grade_above, due_above};
ghost use Rattle.ranks.specs.Standing.{Order, stands_above, Decides};
ghost use Rattle.std.proofs.Common.{rules};

// The number of a client; 0 to 15 are clients.
#[derive(Clone, Copy, PartialEq, Eq, PartialOrd, Ord, Debug)]
pub struct Client(pub u16);

// A kind of rank, by which of two ranks is above the other.
pub trait Rank: Copy {
    ghost above: { Self → Self → Bool };

    fn is_above(&self, other: &Self) -> bool
        ensures { result ≡ above self.now other.now };

    // What each kind of rank proves: its ranks have an order.
    ghost order: { Order above };
}

// A grade: the larger is above.
#[derive(Clone, Copy, PartialEq, Eq, PartialOrd, Ord, Debug)]
pub struct Grade(pub u8);

impl Rank for Grade {
    ghost above = { grade_above };

    ghost order = { record { irreflexive = Prim.search rules; transitive = Prim.search rules; even = Prim.search rules } };

    fn is_above(&self, other: &Grade) -> bool {
        self > other
    }
}

// When a batch is due: the earlier is above, and within a minute the larger weight.
#[derive(Clone, Copy, PartialEq, Eq, Debug)]
pub struct Due {
    pub minute: u16,
    pub weight: u16,
}

impl Rank for Due {
    ghost above = { due_above };

    ghost order = { record { irreflexive = Prim.search rules; transitive = Prim.search rules; even = Prim.search rules } };

    fn is_above(&self, other: &Due) -> bool {
        (other.minute, self.weight) > (self.minute, other.weight)
    }
}

// Whether a client stands above another, by their entries in the host's rank list.
pub fn stands_above<K: Rank>(ranks: &[K], client: Client, other: Client) -> bool
    ensures { result ≡ stands_above K.above ranks.now client.0 other.0 }
{
    let rank = ranks.get(usize::from(client.0));
    let rival = ranks.get(usize::from(other.0));
    rank.zip(rival).is_some_and(|(rank, rival)| {
        rank.is_above(rival) || (!rival.is_above(rank) && client < other)
    })
}

// Standing above is an order that decides between any two clients, for every kind of rank.
pub fn standing_decides<K: Rank>()
    ensures { Decides K.Rank.above }
{}
