// The tags that are open around the one that is read, in a lent stack.
ghost use Rattle.std.specs.Prelude.{◌≡◌, ◌+◌, ◌%◌, ◌^◌, ◌≤◌, ◌<◌, length, slice_set};
ghost use Rattle.tag_pass.specs.Turns.{waits, pushed, popped};

use crate::state::{Holder, Reading};

// A tag that waits for an inner one, and what holds that. Fixed memory: four bytes for a place, which is under 2^20.
#[derive(Clone, Copy)]
pub struct Waiting {
    pub head: u32,
    pub name: Option<u32>,
    pub fifty: u32,
    pub holder: Holder,
}

pub const IDLE: Waiting = Waiting {
    head: 0,
    name: None,
    fifty: 0,
    holder: Holder::Children,
};

// Cut, and not `u32::try_from`: that has an error, which never comes.
fn low(x: usize) -> u32
    ensures { result ≡ x % 4294967296 }
{
    (x % 4294967296) as u32
}

// The tag of st waits for an inner one in that holder.
#[tactic(auto, using(crate::proofs::FrameLaws::inner_depth_small), unfolding(crate::specs::Turns::low_name))]
pub fn push(frames: &mut [Waiting], st: Reading, holder: Holder) -> Reading
    requires { (st.height < length frames.old) × (st.height < 2 ^ 62) × (st.depth < 2 ^ 62) }
    ensures { (result ≡ pushed st holder) × (frames.new ≡ slice_set frames.old st.height (waits st holder)) }
{
    frames[st.height] = Waiting {
        head: low(st.head),
        name: st.name.map(|p| low(p)),
        fifty: low(st.fifty),
        holder,
    };
    Reading {
        height: st.height + 1,
        depth: st.depth + holder.depth(),
        ..st
    }
}

// The tag that waited last is read again. `as`: From makes no usize of a u32, and cuts none.
pub fn resume(st: Reading, frame: Waiting) -> Reading
    ensures { result ≡ popped frame st }
{
    Reading {
        height: st.height.saturating_sub(1),
        head: frame.head as usize,
        name: frame.name.map(|p| p as usize),
        fifty: frame.fifty as usize,
        depth: st.depth.saturating_sub(frame.holder.depth()),
        ..st
    }
}
