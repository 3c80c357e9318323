//! A board and its seats.

use crate::drawing::{Drawn, draw_together};
use crate::looking::meet;
use khe_base::{NoMemory, Seq};
use solve_board::{Board, BoardState, BoardStep, Closed, board_step};
use std::alloc::Global;
use std::test::Fail;
use std::thread::Threads;

/// Two seats claim, one offers, and the other sees it.
#[test]
fn a_seat_sees_what_another_offers(rt: HostRuntime) -> Result<(), Fail> {
    let (board, mut seat) = Board::new(rt.alloc(), 2)?;
    let first = board.claim(&mut seat);
    if first != 0 {
        panic!(rt; "the first number is not 0")
    }
    let mut other = board.split(&mut seat);
    let second = board.claim(&mut other);
    if second != 1 {
        panic!(rt; "the second number is not 1")
    }
    board.offer(&mut other, second);
    let seen = board.look(&mut seat);
    let third = board.claim(&mut seat);
    board.join(&mut seat, other);
    let closed = board.close(seat);
    let found = Closed {
        next: 3,
        least: Some(1),
    };
    assert!(rt; third == 2 && seen == Some(1));
    assert!(rt; closed == found);
    Ok(())
}

/// A claim raises the next number by one.
#[test]
fn a_claim_raises_the_next_number(rt: HostRuntime) -> Result<(), Fail> {
    let mut state = BoardState {
        next: 0,
        claims: Seq::new(rt.alloc()),
        offers: Seq::new(rt.alloc()),
    };
    state.claims.push(Seq::new(rt.alloc()))?;
    state.offers.push(Seq::new(rt.alloc()))?;
    let after = board_step(rt.alloc(), &state, BoardStep::Claim { worker: 0 })?;
    assert!(rt; after.next == 1);
    Ok(())
}

/// What 10,000 jobs came to that several workers claimed: how the board was closed, and whether each
/// job was claimed once.
fn all_claimed<R: Threads + Sync>(
    rt: &R,
    alloc: Global,
    workers: u32,
) -> Result<(Closed, bool), NoMemory> {
    let (board, seat) = Board::new(alloc, 10_000)?;
    let Drawn { seat, mut jobs } = draw_together(rt, alloc, &board, 10_000, workers, seat)?;
    let closed = board.close(seat);
    jobs.sort()?;
    let in_place = jobs.iter().enumerate().all(|(at, job)| *job == at as u64);
    Ok((closed, in_place && jobs.len() == 10_000))
}

#[test]
fn two_seats_claim_each_job_once(rt: HostRuntime) -> Result<(), Fail> {
    let (closed, once) = all_claimed(&rt, rt.alloc(), 2)?;
    assert!(rt; once && closed.next == 10_002 && closed.least == None);
    Ok(())
}

#[test]
fn four_seats_claim_each_job_once(rt: HostRuntime) -> Result<(), Fail> {
    let (closed, once) = all_claimed(&rt, rt.alloc(), 4)?;
    assert!(rt; once && closed.next == 10_004 && closed.least == None);
    Ok(())
}

/// Two workers wait for each other's job, so they see them only where both are at work at the same
/// time, and where a look shows what another thread has offered since.
#[test]
fn two_workers_meet(rt: HostRuntime) -> Result<(), Fail> {
    let (board, mut seat) = Board::new(rt.alloc(), 2)?;
    let mut other = board.split(&mut seat);
    let lower = board.claim(&mut seat);
    let greater = board.claim(&mut other);
    if lower != 0 {
        panic!(rt; "the first number is not 0")
    }
    if greater != 1 {
        panic!(rt; "the second number is not 1")
    }
    let (mine, theirs) = meet(&rt, &board, (seat, lower), (other, greater));
    let (mut seat, saw_greater) = mine;
    let (other, saw_lower) = theirs;
    board.join(&mut seat, other);
    let closed = board.close(seat);
    let found = Closed {
        next: 2,
        least: Some(0),
    };
    assert!(rt; saw_greater && saw_lower);
    assert!(rt; closed == found);
    Ok(())
}
