// What a word touches: lists in arrays with counts. Places past a count hold 0. The layout is C's:
// the answer holds no enum.
// Kept: (a) arrays with counts, a top with one, an edge of 0 if there is none: as lawendeb_touches gives
// them.
ghost use Rattle.std.specs.Prelude.{◌≡◌, take};
ghost use Rattle.locations.specs.Form.{ranges_in, numbers_in};

fn up_to<T>(items: &[T; 3], count: usize) -> &[T]
    ensures { result.now ≡ take count items.now }
{
    &items[..count.min(3)]
}

// Registers from the first to the last, both touched.
#[repr(C)]
#[derive(Clone, Copy)]
pub struct Range {
    pub first: u16,
    pub last: u16,
}

// Rising, with a register between any two that is in neither.
#[repr(C)]
#[derive(Clone, Copy)]
pub struct Ranges {
    pub items: [Range; 3],
    pub count: u16,
}

impl Ranges {
    pub fn as_slice(&self) -> &[Range]
        ensures { result.now ≡ ranges_in self.now }
    {
        up_to(&self.items, usize::from(self.count))
    }
}

// A range up to the stack top, by its first register past those touched at every top; the count is 0 or 1.
#[repr(C)]
#[derive(Clone, Copy)]
pub struct Top {
    pub first: u16,
    pub count: u16,
}

// Constants or upvalues, rising.
#[repr(C)]
#[derive(Clone, Copy)]
pub struct Indices {
    pub items: [u32; 3],
    pub count: u32,
}

impl Indices {
    pub fn as_slice(&self) -> &[u32]
        ensures { result.now ≡ numbers_in self.now }
    {
        up_to(&self.items, self.count as usize)
    }
}

#[repr(C)]
#[derive(Clone, Copy)]
pub struct Touches {
    pub reads: Ranges,
    pub reads_to_top: Top,
    pub constants: Indices,
    pub upvalues: Indices,
    // On every way on.
    pub writes: Ranges,
    pub writes_to_top: Top,
    pub upvalue_writes: Indices,
    // On one way on only, and the successor that it leads to; 0 if nothing is written so.
    pub edge_writes: Ranges,
    pub edge: usize,
}
