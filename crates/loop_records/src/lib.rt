// The loops of a face as a list of records.
#![tactic(auto)]

ghost use Rattle.std.specs.Prelude.{◌≡◌, map, take};
ghost use Rattle.lists.specs.Placed.{placed};
ghost use Rattle.loop_records.specs.Record.{no_loop};

use tables::slices::{copy_into, part};

pub mod measure;
pub mod ring;

#[derive(Clone, Copy)]
pub struct LoopRecord {
    pub start: usize,
    pub count: usize,
    pub wrap: i32,
    pub travel: i32,
    pub area: f64,
}

// The record that stands where there is no loop.
fn no_loop() -> LoopRecord
    ensures { result ≡ no_loop }
{
    LoopRecord {
        start: 0,
        count: 0,
        wrap: 0,
        travel: 0,
        area: 0.0,
    }
}

// The wraps of the first n loops into the front of `wraps`, and nothing where they do not fit.
pub fn wraps_of(loops: [LoopRecord; 16], n: usize, wraps: &mut [i32])
    ensures { wraps.new ≡ placed 0 (map (λ (l : LoopRecord). l.wrap) (take n loops)) wraps.old }
{
    let all = loops.map(|one| one.wrap);
    copy_into(wraps, 0, part(&all, 0, n));
}

// Their areas.
pub fn areas_of(loops: [LoopRecord; 16], n: usize, areas: &mut [f64])
    ensures { areas.new ≡ placed 0 (map (λ (l : LoopRecord). l.area) (take n loops)) areas.old }
{
    let all = loops.map(|one| one.area);
    copy_into(areas, 0, part(&all, 0, n));
}
