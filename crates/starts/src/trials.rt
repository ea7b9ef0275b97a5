// The search for a start on two rings' tables. The u of both rings are worked in `trial`, the first
// ring in front, the later one behind it.
ghost use Rattle.std.specs.Prelude.{◌≡◌, ◌+◌, ◌-◌, ◌≤◌, length};
ghost use Rattle.lists.specs.Placed.{placed};
ghost use Rattle.tables.specs.Corners.{us};
ghost use Rattle.tables.specs.Rows.{rows};
ghost use Rattle.rings.specs.Starts.{first_for, later_for, serves, first_serving};
ghost use Rattle.starts.specs.Search.{search_within};

use crate::later_for;
use rings::choices::{begins_backward, first_of, serve};
use rings::moves::begin_ring_at;
use tables::copies::us_into;
use tables::corners::Corner;
use tables::moves::Move;

// The chosen start, how many were tried, and whether one served. Where none did, the start is the
// fallback's, which is a start all the same: so it stands beside the flag and in no Option.
#[derive(Clone, Copy)]
pub struct Search {
    pub start: usize,
    pub tried: usize,
    pub served: bool,
}

// The first ring's u, begun at its point k, in a place of their length.
fn first_into(u: &mut [f64], first: &[Corner], k: usize, period: f64)
    requires { length u.old ≡ length (rows first.now) }
    ensures { u.new ≡ us (first_for period k (rows first.now)) }
{
    us_into(u, first);
    begin_ring_at(u, k, Move::Up(period));
}

// A later ring's u, put to the cut, in a place of their length.
fn later_into(u: &mut [f64], later: &[Corner], cut: f64, period: f64)
    requires { length u.old ≡ length (rows later.now) }
    ensures { u.new ≡ us (later_for period cut (rows later.now)) }
{
    us_into(u, later);
    later_for(u, cut, period);
}

// Whether the start k serves. `trial` is scratch: it holds the u of this trial, or a part of them,
// afterwards.
#[tactic(auto, using(tables::proofs::Steps::row_steps))]
fn serves(trial: &mut [f64], first: &[Corner], later: &[Corner], k: usize, period: f64) -> bool
    requires { length (rows first.now) + length (rows later.now) ≤ length trial.old }
    ensures { result ≡ serves period (rows first.now) (rows later.now) k }
{
    let (begun, rest) = trial.split_at_mut(first.len());
    first_into(begun, first, k, period);
    if begins_backward(begun) {
        return false;
    }
    let cut = first_of(begun);
    let put = &mut rest[..later.len()];
    later_into(put, later, cut, period);
    serve(begun, put, period)
}

// The first start that serves, and how many there are where none does. It is no `Option`: the definition
// answers so, as what is asked of it is how many starts were tried.
fn first_serving(trial: &mut [f64], first: &[Corner], later: &[Corner], period: f64) -> usize
    requires { length (rows first.now) + length (rows later.now) ≤ length trial.old }
    ensures { result ≡ first_serving period (rows first.now) (rows later.now) }
{
    // Its last point repeats its first.
    let all = first.len().saturating_sub(1);
    for k in 0..all {
        if serves(trial, first, later, k, period) {
            return k;
        }
    }
    all
}

// Starts are tried from 0 on copies of the u in `trial`, which is scratch. Where it is too short for
// both rings, none is tried.
#[tactic(auto, using(tables::proofs::Steps::row_steps))]
pub fn search_tables(trial: &mut [f64], first: &[Corner], later: &[Corner], period: f64) -> Search
    ensures { result ≡ search_within period (length trial.old) (rows first.now) (rows later.now) }
{
    if trial.len() < first.len() + later.len() {
        return Search {
            start: 0,
            tried: 0,
            served: false,
        };
    }
    let start = first_serving(trial, first, later, period);
    let all = first.len().saturating_sub(1);
    if start < all {
        return Search {
            start: start,
            tried: start + 1,
            served: true,
        };
    }
    if begins_backward(first) {
        return Search {
            start: 1,
            tried: all,
            served: false,
        };
    }
    Search {
        start: 0,
        tried: all,
        served: false,
    }
}
