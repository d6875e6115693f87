// How many stores an operation takes (01, "Operations, store by store").
ghost use Rattle.std.specs.Prelude.{◌+◌, ◌≤◌, ◌≡◌};
ghost use Rattle.starting.specs.Stores.{commit_stores, head_stores};

// How many stores bring `count` bytes to an offset of a slot.
pub fn commit_stores(size: usize, offset: usize, count: usize) -> usize
    requires { offset + count ≤ size }
    ensures { result ≡ commit_stores size offset count }
{
    if offset + count < size {
        count + 1
    } else {
        count
    }
}

// How many stores a new head of `count` bytes takes: its byte 0 is made 0 before they come.
pub fn head_stores(size: usize, count: usize) -> usize
    requires { (count ≤ size) × (size ≤ 2048) }
    ensures { result ≡ head_stores size count }
{
    commit_stores(size, 0, count) + 1
}
