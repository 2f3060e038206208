ghost use Rattle.std.specs.Prelude.{◌≡◌, ◌<◌, ◌≤◌};
ghost use Rattle.snp_model.specs.declared.item.Item.TheVariants.{Access};
ghost use Rattle.snp_model.specs.Generated.{command_of, cpu_item, cpu_item_of, firmware_item, given, host_item, host_item_of, item_for, mapping, taken_away, word_address};

use crate::drill::Drill;
use snp_model::{Command, Item, Op, PageSize, Role, Update};

// An access to a word of a page.
fn access(page: u32, index: u32, op: Op) -> Item
    requires { (page < 512) × (index < 512) }
    ensures { result ≡ Access (word_address page index) op }
{
    Item::Access {
        address: 4096 * u64::from(page) + 8 * u64::from(index),
        op,
    }
}

/// The entry of a nested table that maps a frame: present, writable, for user accesses.
pub fn mapping(frame: u32) -> u64
    requires { frame < 512 }
    ensures { result ≡ mapping frame }
{
    4096 * u64::from(frame) + 7
}

// The operands of RMPUPDATE that assign a frame.
fn given(frame: u32, asid: u16, gpn: u32, immutable: bool) -> Update
    ensures { result ≡ given frame asid gpn immutable }
{
    Update {
        frame: u64::from(frame),
        size: PageSize::Small,
        assigned: true,
        asid,
        gpn: u64::from(gpn),
        immutable,
    }
}

// The operands of RMPUPDATE that take a frame away.
fn taken_away(frame: u32) -> Update
    ensures { result ≡ taken_away frame }
{
    Update {
        frame: u64::from(frame),
        size: PageSize::Small,
        assigned: false,
        asid: 0,
        gpn: 0,
        immutable: false,
    }
}

// A command of the firmware, by its kind.
#[tactic(auto, unfolding(snp_model::specs::Generated::command_of))]
fn command(
    kind: u32,
    guest: u8,
    frame: u64,
    other: u64,
    sealed: u64,
    metadata: u64,
    entry: u8,
) -> Command
    ensures { result ≡ command_of kind guest frame other sealed metadata entry }
{
    if kind == 0 {
        Command::MdInit { frame: metadata }
    } else if kind == 1 {
        Command::PageMove {
            guest,
            source: frame,
            target: other,
        }
    } else if kind == 2 {
        Command::SwapOut {
            guest,
            source: frame,
            target: sealed,
            metadata,
            entry,
        }
    } else if kind == 3 {
        Command::SwapIn {
            guest,
            source: sealed,
            target: frame,
            metadata,
            entry,
        }
    } else {
        Command::Reclaim { frame }
    }
}

impl Drill {
    // An item of a guest's processor, by its kind, on a word of a page.
    #[tactic(auto, unfolding(snp_model::specs::Generated::cpu_item_of))]
    fn cpu_item_of(&mut self, kind: u32, page: u32, index: u32) -> Item
        requires { (page < 512) × (index < 512) }
        ensures { (result, self.new) ≡ cpu_item_of kind page index self.old }
    {
        if kind < 4 {
            access(page, index, Op::Load)
        } else if kind < 6 {
            let value = self.pick(1000);
            access(page, index, Op::Store(u64::from(value)))
        } else if kind == 6 {
            let value = self.pick(1000);
            access(page, index, Op::Xor(u64::from(value)))
        } else {
            let flag = self.pick(2);
            Item::Pvalidate {
                address: 4096 * u64::from(page),
                size: PageSize::Small,
                validate: flag == 1,
            }
        }
    }

    // An item of a guest's processor.
    #[tactic(auto, unfolding(snp_model::specs::Generated::cpu_item))]
    fn cpu_item(&mut self) -> Item
        ensures { (result, self.new) ≡ cpu_item self.old }
    {
        let kind = self.pick(8);
        let page = self.pick(16);
        let index = self.pick(512);
        self.cpu_item_of(kind, page, index)
    }

    // An item of a hypervisor's processor, by its kind, for a guest, a frame of its and a place.
    #[tactic(auto, unfolding(snp_model::specs::Generated::host_item_of))]
    fn host_item_of(&mut self, kind: u32, guest: u16, frame: u32, place: u32) -> Item
        requires { (guest ≤ 2) × (frame < 512) × (place < 512) }
        ensures { (result, self.new) ≡ host_item_of kind guest frame place self.old }
    {
        if kind == 0 {
            let flag = self.pick(2);
            Item::Rmpupdate(given(frame, guest, place, flag == 1))
        } else if kind == 1 {
            let table = 16 * u32::from(guest) + 3;
            access(table, place, Op::Store(mapping(frame)))
        } else if kind == 2 {
            Item::Rmpupdate(taken_away(frame))
        } else if kind == 3 {
            let sealed = self.pick(16);
            access(300 + sealed, place, Op::Xor(1))
        } else if kind == 4 {
            let metadata = self.pick(4);
            Item::Rmpupdate(given(400 + metadata, 0, 0, true))
        } else {
            access(frame, place, Op::Load)
        }
    }

    // An item of a hypervisor's processor.
    #[tactic(auto, unfolding(snp_model::specs::Generated::host_item))]
    fn host_item(&mut self) -> Item
        ensures { (result, self.new) ≡ host_item self.old }
    {
        let kind = self.pick(6);
        let guest = 1 + self.pick(2);
        let frame = 64 * guest + self.pick(16);
        let place = self.pick(16);
        self.host_item_of(kind, guest as u16, frame, place)
    }

    // An item of the firmware. All is drawn whatever the kind.
    #[tactic(auto, unfolding(snp_model::specs::Generated::firmware_item))]
    fn firmware_item(&mut self) -> Item
        ensures { (result, self.new) ≡ firmware_item self.old }
    {
        let kind = self.pick(5);
        let guest = 1 + self.pick(2);
        let frame = 64 * guest + self.pick(16);
        let other = 64 * guest + self.pick(16);
        let sealed = 300 + self.pick(16);
        let metadata = 400 + self.pick(4);
        let entry = self.pick(64);
        Item::Firmware(command(
            kind,
            guest as u8,
            u64::from(frame),
            u64::from(other),
            u64::from(sealed),
            u64::from(metadata),
            entry as u8,
        ))
    }

    /// An item of an actor with this role.
    pub(crate) fn item_for(&mut self, role: Role) -> Item
        ensures { (result, self.new) ≡ item_for role self.old }
    {
        match role {
            Role::Cpu { .. } => self.cpu_item(),
            Role::Host => self.host_item(),
            Role::Firmware => self.firmware_item(),
        }
    }
}
