//! The machine: memory by regions, guests and actors, and one event after the other.
//!
//! - `machine`: the machine; `building`: its opening; `law`: what holds of every step and run.
//! - `event`: `advance`, one event of one actor, by its role and its item.
//! - `actor`: an actor's own state; `walk_words`: what its walks have read; `taken_lock`: a lock that it has taken;
//!   `made_page`: a page that a compute makes; `shown`: what an event shows.
//! - `cpu`, `validate`, `adjust`, `host`, `update`, `smash`, `skip`: the items; `walking`: what the walks of a guest's
//!   processor need next; `page`: what PVALIDATE and RMPADJUST share.
//! - `command`: what a command of the firmware needs next; `command_event`: its next event; `held_context`: the lock and the
//!   commit of a guest's context; `firmware`: the lock of a page that it names; `compute_event`: the compute of a page that it
//!   seals or opens; `launch`, `page_move`, `reclaim`, `metadata`, `swap_commit`: its commits; `refusal`: the release of all
//!   that it has locked; `release`: that of an actor's locks in one region.
//! - `sealing`: what a command seals or opens; `compute`: what is made of it; `swap`, `swap_context`: what its commit makes of
//!   pages and of the guest's context.
//! - `parts`: what is lent to an event; `bay`: one region of it; `reads`, `changes`: what an event reads of a region, and
//!   what it reads and writes of one at once.
//!
//! One event goes this way: `Machine::step` lends all regions to `advance`, which asks the actor for its role and its line
//! (`next_event`) and goes by the role (`cpu_event`, `host_event`, `firmware_event`) and the item to `cpu_access`,
//! `validate_event`, `adjust_event`, `host_access`, `update_event`, `smash_event` or `skip`. An item of a guest's
//! processor goes on in its walks by `walk`, which asks `walk_need` what they need, until they have come to a page. A word
//! of a table is read by `reads`, and the access itself is made by `changes`, which take the region's `Bay` from the
//! parts: the check and the access are one call of `access_step` on it. RMPUPDATE, PSMASH, PVALIDATE and RMPADJUST are two
//! events, the lock and the commit, each one call of `rmp_update`, `rmp_validate` or `rmp_adjust` on the region's `Bay`. A
//! command of the firmware goes to `command_event`: the lock of its guest's context, one event for the lock of each page, the
//! compute of a page that it seals or opens, and its commit, which are calls of `fw_launch`, `fw_move`, `fw_reclaim` or
//! `fw_swap`. What a compute makes stands in a place of the machine's, and then in one of its actor's until the commit.
//! What an event shows is written to a `Shown` of the machine's, since large values are slow to hand upward, and
//! `ActorState::take_down` turns it into the event and the actor's next state.
#![tactic(auto)]

mod actor;
mod adjust;
mod bay;
mod building;
mod changes;
mod command;
mod command_event;
mod compute;
mod compute_event;
mod cpu;
mod event;
mod firmware;
mod held_context;
mod host;
mod launch;
mod law;
mod machine;
mod made_page;
mod metadata;
mod page;
mod page_move;
mod parts;
mod reads;
mod reclaim;
mod refusal;
mod release;
mod sealing;
mod shown;
mod skip;
mod smash;
mod swap;
mod swap_commit;
mod swap_context;
mod taken_lock;
mod update;
mod validate;
mod walk_words;
mod walking;

pub use bay::Bay;
pub use guest_context::GuestContext;
pub use law::machine_laws;
pub use machine::Machine;
pub use parts::{OwnParts, Parts};
