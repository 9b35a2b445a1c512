ghost use Rattle.std.specs.Prelude.{◌≡◌, ◌≤◌, true, length, reverse};
ghost use Rattle.arena.specs.Standing.{all_stand};

use crate::room::Room;
use vocabulary::nodes::Node;

/// The records and the text of an arena, each up to a limit.
#[derive(Drop)]
pub struct Memory {
    pub(crate) nodes: Room<Node>,
    pub(crate) text: Room<u8>,
    ghost few: { length nodes.items ≤ nodes.limit },
    ghost short: { length text.items ≤ text.limit },
    ghost numbered: { nodes.limit ≤ 65535 },
    ghost addressed: { text.limit ≤ 65536 },
    ghost sound: { all_stand (length text.items) (reverse nodes.items) ≡ true },
}
