ghost use Rattle.std.specs.Prelude.{◌≡◌, List, [], map, None};
ghost use Rattle.snp_model.specs.declared.scenario.GuestSpec.{GuestSpec};
ghost use Rattle.run_laws.specs.KeptLocks.{OwnsContext, OwnsLocks, recontexted, relocked};
ghost use Rattle.machine_core.specs.Actors.{page_lock_of};
ghost use Rattle.machine_core.specs.Bays.{HasTouched, contexts_of, holders_of, locks_of, pages_of};
ghost use Rattle.machine_core.specs.Commands.{AreInOneRegion, frames_touched, let_go_in};

use crate::actor::ActorState;
use crate::held_context::release_context;
use crate::parts::Parts;
use crate::release::release;
use crate::taken_lock::TakenLock;

/// Releases all that the open attempt of an actor has locked: its pages, in up to three regions, and the context of a guest.
pub fn release_all<P: Parts>(parts: &mut P, number: u32, actor: &ActorState)
    requires has { HasTouched (frames_touched actor.now.standing) (P.stock parts.old) }
    requires regions { AreInOneRegion actor.now.standing.locks }
    requires owns { OwnsLocks number actor.now (locks_of (P.stock parts.old)).holder }
    requires owns_context { OwnsContext number actor.now (locks_of (P.stock parts.old)).context_holder }
    ensures pages { pages_of (P.stock parts.new).bays ≡ pages_of (P.stock parts.old).bays }
    ensures contexts { (guests : List GuestSpec) → contexts_of (P.stock parts.new).contexts guests ≡ contexts_of (P.stock parts.old).contexts guests }
    ensures locks { (locks_of (P.stock parts.new)).holder ≡ relocked number [] (locks_of (P.stock parts.old)).holder }
    ensures context_locks { (locks_of (P.stock parts.new)).context_holder ≡ recontexted number None (locks_of (P.stock parts.old)).context_holder }
    ensures kept { P.kept parts.old parts.new }
{
    release_pages(parts, number, actor.locks());
    match actor.context_lock() {
        None => {}
        Some(guest) => release_context(parts, number, guest),
    }
}

// Releases the actor's locks of pages in the regions of these.
fn release_pages<P: Parts>(parts: &mut P, number: u32, locks: &[TakenLock])
    requires has { HasTouched (frames_touched (record { locks = map page_lock_of locks.now; context_lock = None; computed = None })) (P.stock parts.old) }
    ensures pages { pages_of (P.stock parts.new).bays ≡ pages_of (P.stock parts.old).bays }
    ensures contexts { (P.stock parts.new).contexts ≡ (P.stock parts.old).contexts }
    ensures locks { holders_of (P.stock parts.new).bays ≡ let_go_in number (map page_lock_of locks.now) (holders_of (P.stock parts.old).bays) }
    ensures kept { P.kept parts.old parts.new }
{
    'locks: for lock in locks {
        release(parts, lock.frame / 512, number);
    }
}
