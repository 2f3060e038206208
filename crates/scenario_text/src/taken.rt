ghost use Rattle.std.specs.Prelude.{◌≡◌, ℕ, ◌+◌, ◌<◌, ◌≤◌, ◌^◌, ◌==◌, ◌&&◌, ◌||◌, true, false, List, [], ◌∷◌, ◌++◌, length, get_or, OnOk};
ghost use Rattle.std.specs.List.{list_any, range_with_len};
ghost use Rattle.std.specs.HashSet.{contains};
ghost use Rattle.snp_model.specs.declared.scenario.PageSpec.{PageSpec};
ghost use Rattle.snp_model.specs.Locks.{in_range};
ghost use Rattle.snp_model.specs.ScenarioLines.{collide};
ghost use Rattle.scenario_text.specs.Pages.{same_gpn, frame_taken, gpn_taken, Knows};

use snp_model::PageSpec;
use std::alloc::{AllocError, Global};
use std::collections::HashSet;

/// The frames, and the guests' page numbers, that some pages have. A look-up takes as long for many pages as for few.
#[derive(Drop)]
pub struct Taken {
    /// Whether each frame has a page; those behind the end have none.
    frames: Vec<bool>,
    /// The guests and guest page numbers.
    gpns: HashSet<(u8, u64)>,
}

impl Taken {
    /// Those of no pages. Takes no memory.
    pub fn new(alloc: Global) -> Taken
        ensures { Knows result [] }
    {
        Taken {
            frames: Vec::new(alloc),
            gpns: HashSet::new(alloc),
        }
    }

    /// Whether a page has a frame, or a page number of its guest, in common with one of the pages.
    pub fn has(&self, page: &PageSpec) -> bool
        requires { page.now.gpn < 2 ^ 36 }
        ensures { (pages : List PageSpec) → Knows self.now pages → result ≡ list_any (collide page.now) pages }
    {
        let count = page.size.frames() as usize;
        self.has_frames(page.frame as usize, count)
            || self.has_gpns(page.guest, page.gpn, count as u64)
    }

    // Whether one of so many frames has a page.
    fn has_frames(&self, base: usize, count: usize) -> bool
        requires base { base < 2 ^ 32 }
        requires count { count ≤ 512 }
        ensures { result ≡ list_any (frame_taken self.now) (range_with_len base count) }
    {
        for frame in base..base + count {
            if self.has_frame(frame) {
                return true;
            }
        }
        false
    }

    // Whether a frame has a page.
    fn has_frame(&self, frame: usize) -> bool
        ensures { result ≡ frame_taken self.now frame }
    {
        match self.frames.get(frame) {
            Some(taken) => *taken,
            None => false,
        }
    }

    // Whether one of so many page numbers of a guest has a page.
    fn has_gpns(&self, guest: u8, base: u64, count: u64) -> bool
        requires base { base < 2 ^ 36 }
        requires count { count ≤ 512 }
        ensures { result ≡ list_any (λ gpn. gpn_taken self.now (guest, gpn)) (range_with_len base count) }
    {
        for gpn in base..base + count {
            if self.gpns.contains(&(guest, gpn)) {
                return true;
            }
        }
        false
    }

    /// Adds a page. Where memory runs out, it may be left half added.
    pub fn add(&mut self, page: &PageSpec) -> Result<(), AllocError>
        requires { page.now.gpn < 2 ^ 36 }
        ensures { OnOk result ((pages : List PageSpec) → Knows self.old pages → Knows self.new (pages ++ page.now ∷ [])) }
    {
        let count = page.size.frames() as usize;
        take_frames(&mut self.frames, page.frame as usize, count)?;
        take_gpns(&mut self.gpns, page.guest, page.gpn, count as u64)?;
        Ok(())
    }
}

// Room for frames below an end, none of which is taken yet.
fn make_room(frames: &mut Vec<bool>, end: usize) -> Result<(), AllocError>
    ensures room { OnOk result (end ≤ length frames.new.items) }
    ensures same { OnOk result ((f : ℕ) → get_or frames.new.items f false ≡ get_or frames.old.items f false) }
{
    if frames.len() < end {
        frames.resize(end, false)?;
    }
    Ok(())
}

// Marks so many frames as taken.
fn take_frames(frames: &mut Vec<bool>, base: usize, count: usize) -> Result<(), AllocError>
    requires base { base < 2 ^ 32 }
    requires count { count ≤ 512 }
    ensures { OnOk result ((f : ℕ) → get_or frames.new.items f false ≡ (in_range base count f || get_or frames.old.items f false)) }
{
    let end = base + count;
    make_room(frames, end)?;
    for frame in base..end {
        frames[frame] = true;
    }
    Ok(())
}

// Marks so many page numbers of a guest as taken.
fn take_gpns(
    gpns: &mut HashSet<(u8, u64)>,
    guest: u8,
    base: u64,
    count: u64,
) -> Result<(), AllocError>
    requires base { base < 2 ^ 36 }
    requires count { count ≤ 512 }
    ensures { OnOk result ((q : ℕ × ℕ) → contains same_gpn gpns.new q ≡ (((q.0 == guest) && in_range base count q.1) || contains same_gpn gpns.old q)) }
{
    for gpn in base..base + count {
        gpns.insert((guest, gpn))?;
    }
    Ok(())
}
