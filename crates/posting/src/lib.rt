// Posting: which stamped payments are free, and posting them by stamp [R41 to R44]. The payments and the own number come in as parts of
// the ledger, whose struct stands above, in `ledger` [X4].
#![tactic(auto)]

ghost use Rattle.std.specs.Prelude.{◌≡◌, ◌<◌, IfSome};
ghost use Rattle.held.specs.Held.{limit};
ghost use Rattle.posting.specs.Posting.{first_free, holds_back, left, none_free, posting};

use frame::LedgerNo;
use held::HELD;
use payment::{Payment, Stamp};

// [R42] Whether a payment is still proposed, with an own proposal below a stamp.
fn holds_back(p: Payment, own: LedgerNo, stamp: Stamp) -> bool
    ensures { result ≡ holds_back own.0 stamp p }
{
    p.phase == payment::PROPOSED && payment::proposal(p.times, own).is_below(stamp)
}

// [R43, X5] The place of the stamped payment of the least stamp that no proposed payment holds back, where there is one.
fn next(payments: [Payment; HELD], own: LedgerNo) -> Option<usize>
    ensures first { result ≡ first_free payments own.0 }
    ensures within { IfSome result (λ i. i < limit) }
{
    let mut best: Option<(usize, Stamp)> = None;
    'candidates: for (i, p) in payments.iter().enumerate() {
        if p.phase != payment::STAMPED {
            continue 'candidates;
        }
        let stamp = p.stamp();
        for q in &payments {
            if holds_back(*q, own, stamp) {
                continue 'candidates;
            }
        }
        if best.is_none_or(|(_, least)| stamp.is_below(least)) {
            best = Some((i, stamp));
        }
    }
    best.map(|(i, _)| i)
}

// [S9] Whether no stamped payment is free to post.
pub fn none_free(payments: [Payment; HELD], own: LedgerNo) -> bool
    ensures { result ≡ none_free payments own.0 }
{
    next(payments, own).is_none()
}

#[derive(Clone, Copy)]
pub struct Posted {
    pub payments: [Payment; HELD],
    // How many numbers stand at the front of the list, which is the caller's.
    pub count: usize,
}

// [R43, R44] Posts all that are free, the lowest stamp first, and puts their numbers at the front of the list.
pub fn post(mut payments: [Payment; HELD], own: LedgerNo, list: &mut [u32]) -> Posted
    ensures { left result list.new ≡ posting payments own.0 list.old }
{
    if list.len() < HELD {
        return Posted { payments, count: 0 };
    }
    // The number posted is promised (`left`), so it is counted.
    let mut n = 0;
    while let Some(i) = next(payments, own) {
        list[n] = payments[i].number.0;
        payments[i].phase = payment::POSTED;
        n += 1;
    }
    Posted { payments, count: n }
}
