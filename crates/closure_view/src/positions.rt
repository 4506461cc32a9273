// A position in 64 bits. From the low end on, a spot has 16 bits for the node, 16 for the depth and 31 for the height of the chain.
// The top bit marks a position on the spine; the other bits are then the arguments taken.
ghost use Rattle.std.specs.Prelude.{◌≡◌, ◌^◌, ◌<◌};
ghost use Rattle.closure_tables.specs.Presented.{height};
ghost use Rattle.closure_tables.specs.Positions.{position_of, spine_number, spot_number, front};

use closure_tables::{Position, Spot};

const NODES: u64 = 1 << 16;

const DEPTHS: u64 = 1 << 16;

const FIRST_SPINE: u64 = 1 << 63;

// How many entries come up to the front of a chain.
pub(crate) fn height(chain: Option<u32>) -> u64
    ensures { result ≡ height chain }
{
    chain.map_or(0, |entry| u64::from(entry) + 1)
}

// The chain of a height.
fn front(height: u32) -> Option<u32>
    ensures { result ≡ front height }
{
    height.checked_sub(1)
}

pub(crate) fn position_of(number: u64) -> Position
    ensures { result ≡ position_of number }
{
    match number.checked_sub(FIRST_SPINE) {
        Some(taken) => Position::Spine(taken as usize),
        None => Position::Inside(Spot {
            node: (number % NODES) as u16,
            depth: (number / NODES % DEPTHS) as u16,
            chain: front((number / NODES / DEPTHS) as u32),
        }),
    }
}

pub(crate) fn spot_number(spot: Spot) -> u64
    requires { height spot.chain < 2 ^ 31 }
    ensures { result ≡ spot_number spot }
{
    u64::from(spot.node) + NODES * (u64::from(spot.depth) + DEPTHS * height(spot.chain))
}

pub(crate) fn spine_number(taken: usize) -> u64
    requires { taken < 2 ^ 63 }
    ensures { result ≡ spine_number taken }
{
    FIRST_SPINE + taken as u64
}
