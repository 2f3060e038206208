ghost use Rattle.std.specs.Borrow.{Lends, sem};
ghost use Rattle.std.specs.Prelude.{◌≡◌, ℕ, Some, IsSome};
ghost use Rattle.guest_context.specs.contracts.context.GuestContext.{the_row as context_row};
ghost use Rattle.snp_model.specs.HeldContexts.{HeldContext};
ghost use Rattle.snp_model.specs.Touches.{Touched};
ghost use Rattle.machine_core.specs.Bays.{HasTouched, Stock, stock_with, stock_with_context};
ghost use Rattle.machine_core.specs.contracts.bay.Bay.{the_row as bay_row};
ghost use Rattle.machine_core.specs.declared.bay.Bay.{Bay};

use crate::bay::Bay;
use guest_context::GuestContext;

/// What is lent to one event, to read and to write: the bays of some regions and the contexts of some guests, one loan at a
/// time. Contracts see all that can be lent as a stock. What is written through one loan leaves all else in the stock.
pub trait Parts {
    /// All that can be lent.
    ghost stock: { Self → Stock };

    /// The parts once this bay is written as that of a region.
    ghost with_bay: { Self → ℕ → Bay → Self };

    /// The parts once this context is written as that of a guest.
    ghost with_context: { Self → ℕ → HeldContext → Self };

    /// The later parts are the earlier ones with other values at the same places.
    ghost kept: { Self → Self → Type 0 };

    /// The bay of a region that is there.
    fn bay(&self, region: u32) -> &Bay
        requires { IsSome ((stock self.now).bays region) }
        ensures { (stock self.now).bays region ≡ Some result.now };

    /// The bay of a region that is there, to write to.
    fn bay_mut(&mut self, region: u32) -> &mut Bay
        requires { IsSome ((stock self.old).bays region) }
        ensures value { (stock self.old).bays region ≡ Some result.now }
        ensures* writes_back { sem 𝓛 (Lends Self.row bay_row self.entry result (with_bay self.entry.now region)) };

    /// The context of a guest that is there.
    fn context(&self, guest: u8) -> &GuestContext
        requires { IsSome ((stock self.now).contexts guest) }
        ensures { (stock self.now).contexts guest ≡ Some result.now };

    /// The context of a guest that is there, to write to.
    fn context_mut(&mut self, guest: u8) -> &mut GuestContext
        requires { IsSome ((stock self.old).contexts guest) }
        ensures value { (stock self.old).contexts guest ≡ Some result.now }
        ensures* writes_back { sem 𝓛 (Lends Self.row context_row self.entry result (with_context self.entry.now guest)) };

    ghost bay_written: { (parts : Self) (region : ℕ) (bay : Bay) → IsSome ((stock parts).bays region) → stock (with_bay parts region bay) ≡ stock_with region bay (stock parts) };

    ghost bay_alone: { (parts : Self) (region : ℕ) (bay : Bay) → IsSome ((stock parts).bays region) → (stock (with_bay parts region bay)).contexts ≡ (stock parts).contexts };

    ghost bay_kept: { (parts : Self) (region : ℕ) (bay : Bay) → IsSome ((stock parts).bays region) → kept parts (with_bay parts region bay) };

    ghost context_written: { (parts : Self) (guest : ℕ) (held : HeldContext) → IsSome ((stock parts).contexts guest) → stock (with_context parts guest held) ≡ stock_with_context guest held (stock parts) };

    ghost context_alone: { (parts : Self) (guest : ℕ) (held : HeldContext) → IsSome ((stock parts).contexts guest) → (stock (with_context parts guest held)).bays ≡ (stock parts).bays };

    ghost context_kept: { (parts : Self) (guest : ℕ) (held : HeldContext) → IsSome ((stock parts).contexts guest) → kept parts (with_context parts guest held) };

    ghost kept_same: { (parts : Self) → kept parts parts };

    ghost kept_twice: { (first second third : Self) → kept first second → kept second third → kept first third };

    ghost kept_has: { (first second : Self) → kept first second → (touched : Touched) → HasTouched touched (stock first) → HasTouched touched (stock second) };
}

/// Parts that own the bays of all regions, from region 0 on, and the contexts of all declared guests, from guest 1 on.
#[derive(Drop)]
pub struct OwnParts {
    pub bays: Vec<Bay>,
    pub contexts: Vec<GuestContext>,
}

impl Parts for OwnParts {
    ghost use Rattle.std.specs.Prelude.{◌≡◌, ◌-◌};
    ghost use Rattle.std.specs.Vec.{with_item};
    ghost use Rattle.machine_core.specs.Bays.{own_stock};
    ghost use Rattle.machine_core.specs.OwnLaws.{SameLengths, bay_alone, bay_put, bay_lengths, context_alone, context_lengths, context_put, lengths_has, lengths_same, lengths_twice};

    ghost stock = { λ s. own_stock s.bays.items s.contexts.items };

    ghost with_bay = { λ s r w. record s { bays = with_item s.bays r w } };

    ghost with_context = { λ s g w. record s { contexts = with_item s.contexts (g - 1) w } };

    ghost kept = { SameLengths };

    fn bay(&self, region: u32) -> &Bay {
        &self.bays[region as usize]
    }

    fn bay_mut(&mut self, region: u32) -> &mut Bay {
        &mut self.bays[region as usize]
    }

    fn context(&self, guest: u8) -> &GuestContext {
        &self.contexts[guest as usize - 1]
    }

    fn context_mut(&mut self, guest: u8) -> &mut GuestContext {
        &mut self.contexts[guest as usize - 1]
    }

    ghost bay_written = { bay_put };

    ghost bay_alone = { bay_alone };

    ghost bay_kept = { bay_lengths };

    ghost context_written = { context_put };

    ghost context_alone = { context_alone };

    ghost context_kept = { context_lengths };

    ghost kept_same = { lengths_same };

    ghost kept_twice = { lengths_twice };

    ghost kept_has = { lengths_has };
}
