//! What repair comes to.

use ejection_repair::Outcome;

/// A repair of a solution, and what it comes to: the outcome and the totals.
#[derive(Clone, Copy)]
pub(crate) struct Case {
    pub(crate) solution: u32,
    pub(crate) depth: u32,
    pub(crate) budget: u64,
    pub(crate) diversifier: u64,
    pub(crate) outcome: Outcome,
    pub(crate) hard: u128,
    pub(crate) soft: u128,
}

pub(crate) const OF_SMALL: [Case; 7] = [
    Case {
        solution: 0,
        depth: 1,
        budget: 1,
        diversifier: 0,
        outcome: Outcome::Spent {
            accepted: 1,
            tried: 1,
            complete_to: 0,
        },
        hard: 6,
        soft: 0,
    },
    Case {
        solution: 0,
        depth: 1,
        budget: 1000,
        diversifier: 0,
        outcome: Outcome::Done {
            accepted: 4,
            tried: 5,
        },
        hard: 0,
        soft: 0,
    },
    Case {
        solution: 0,
        depth: 1,
        budget: 1,
        diversifier: 1,
        outcome: Outcome::Spent {
            accepted: 1,
            tried: 1,
            complete_to: 0,
        },
        hard: 10,
        soft: 3,
    },
    Case {
        solution: 0,
        depth: 1,
        budget: 1,
        diversifier: 2,
        outcome: Outcome::Spent {
            accepted: 1,
            tried: 1,
            complete_to: 0,
        },
        hard: 9,
        soft: 0,
    },
    Case {
        solution: 0,
        depth: 2,
        budget: 3,
        diversifier: 5,
        outcome: Outcome::Spent {
            accepted: 2,
            tried: 3,
            complete_to: 0,
        },
        hard: 7,
        soft: 3,
    },
    Case {
        solution: 0,
        depth: 4,
        budget: 20,
        diversifier: 7,
        outcome: Outcome::Done {
            accepted: 6,
            tried: 7,
        },
        hard: 0,
        soft: 0,
    },
    Case {
        solution: 1,
        depth: 1,
        budget: 10,
        diversifier: 0,
        outcome: Outcome::Done {
            accepted: 0,
            tried: 0,
        },
        hard: 0,
        soft: 0,
    },
];

pub(crate) const OF_CROSSED: [Case; 4] = [
    Case {
        solution: 0,
        depth: 1,
        budget: 10,
        diversifier: 0,
        outcome: Outcome::Done {
            accepted: 1,
            tried: 2,
        },
        hard: 0,
        soft: 0,
    },
    Case {
        solution: 0,
        depth: 2,
        budget: 10,
        diversifier: 0,
        outcome: Outcome::Done {
            accepted: 1,
            tried: 2,
        },
        hard: 0,
        soft: 0,
    },
    Case {
        solution: 0,
        depth: 1,
        budget: 1,
        diversifier: 0,
        outcome: Outcome::Spent {
            accepted: 0,
            tried: 1,
            complete_to: 0,
        },
        hard: 2,
        soft: 0,
    },
    Case {
        solution: 0,
        depth: 4,
        budget: 100,
        diversifier: 3,
        outcome: Outcome::Done {
            accepted: 1,
            tried: 1,
        },
        hard: 0,
        soft: 0,
    },
];

pub(crate) const OF_SPLIT: [Case; 8] = [
    Case {
        solution: 0,
        depth: 1,
        budget: 200,
        diversifier: 0,
        outcome: Outcome::Done {
            accepted: 11,
            tried: 31,
        },
        hard: 0,
        soft: 2,
    },
    Case {
        solution: 0,
        depth: 2,
        budget: 60,
        diversifier: 1,
        outcome: Outcome::Done {
            accepted: 11,
            tried: 17,
        },
        hard: 0,
        soft: 0,
    },
    Case {
        solution: 0,
        depth: 3,
        budget: 150,
        diversifier: 2,
        outcome: Outcome::Spent {
            accepted: 12,
            tried: 150,
            complete_to: 1,
        },
        hard: 2,
        soft: 2,
    },
    Case {
        solution: 0,
        depth: 4,
        budget: 90,
        diversifier: 4,
        outcome: Outcome::Spent {
            accepted: 7,
            tried: 90,
            complete_to: 1,
        },
        hard: 0,
        soft: 2,
    },
    Case {
        solution: 1,
        depth: 1,
        budget: 200,
        diversifier: 0,
        outcome: Outcome::Done {
            accepted: 7,
            tried: 80,
        },
        hard: 0,
        soft: 2,
    },
    Case {
        solution: 1,
        depth: 2,
        budget: 100,
        diversifier: 3,
        outcome: Outcome::Spent {
            accepted: 7,
            tried: 100,
            complete_to: 1,
        },
        hard: 0,
        soft: 2,
    },
    Case {
        solution: 1,
        depth: 3,
        budget: 150,
        diversifier: 11,
        outcome: Outcome::Done {
            accepted: 7,
            tried: 132,
        },
        hard: 0,
        soft: 0,
    },
    Case {
        solution: 1,
        depth: 4,
        budget: 80,
        diversifier: 1,
        outcome: Outcome::Spent {
            accepted: 6,
            tried: 80,
            complete_to: 2,
        },
        hard: 0,
        soft: 2,
    },
];
