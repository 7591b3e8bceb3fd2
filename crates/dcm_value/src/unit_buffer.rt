// The units of a value that comes in pieces.
ghost use Rattle.std.specs.Prelude.{◌≡◌, ◌⊎◌, ◌<◌, ◌≤◌, ◌+◌, ◌-◌, ◌*◌, ◌/◌, ◌==◌, if◌then◌else◌, [], ◌++◌, length};

use arrayvec::ArrayVec;

/// The bytes of a unit that is not whole yet (PS3.5 7.3), at most N. A value comes in pieces, which may cut a unit in
/// two.
#[derive(Drop)]
pub struct UnitBuffer<const N: usize> {
    bytes: ArrayVec<u8, N>,
}

/// What bytes come to after those that were held.
#[derive(Drop)]
pub struct Units<'b, const N: usize> {
    /// The unit that they complete. It is empty where none was begun.
    pub first: ArrayVec<u8, N>,
    /// The whole units after it.
    pub others: &'b [u8],
}

impl<const N: usize> UnitBuffer<N> {
    /// Nothing is held yet.
    pub fn new() -> UnitBuffer<N>
        ensures { result.bytes.items ≡ [] }
    {
        UnitBuffer {
            bytes: ArrayVec::new(),
        }
    }

    /// The bytes that are held.
    pub fn as_slice(&self) -> &[u8]
        ensures { result.now ≡ self.now.bytes.items }
    {
        self.bytes.as_slice()
    }

    /// Holds bytes more.
    pub fn hold(&mut self, bytes: &[u8])
        requires { length self.old.bytes.items + length bytes.now ≤ N }
        ensures { self.new.bytes.items ≡ self.old.bytes.items ++ bytes.now }
    {
        let _ = self.bytes.try_extend_from_slice(bytes);
    }

    /// Takes bytes of the value, whose units have this size, and holds those that make no whole unit.
    pub fn feed<'b>(&mut self, size: usize, bytes: &'b [u8]) -> Units<'b, N>
        requires held { length self.old.bytes.items < size }
        requires room { size ≤ N }
        ensures bytes { self.old.bytes.items ++ bytes.now ≡ result.first.items
            ++ (result.others.now ++ self.new.bytes.items) }
        ensures first { (result.first.items ≡ []) ⊎ (length result.first.items ≡ size) }
        ensures others { length result.others.now / size * size ≡ length result.others.now }
        ensures held { length self.new.bytes.items < size }
    {
        let lacking = self.lacking(size);
        if bytes.len() < lacking {
            self.hold(bytes);
            return Units {
                first: ArrayVec::new(),
                others: &[],
            };
        }
        let (start, rest) = bytes.split_at(lacking);
        let (others, tail) = rest.split_at(rest.len() / size * size);
        let first = self.complete(start);
        self.hold(tail);
        Units { first, others }
    }

    /// How many bytes the unit lacks that is held.
    fn lacking(&self, size: usize) -> usize
        requires { length self.now.bytes.items < size }
        ensures { result ≡ (if length self.now.bytes.items == 0 then 0 else size - length self.now.bytes.items) }
    {
        if self.bytes.is_empty() {
            0
        } else {
            size - self.bytes.len()
        }
    }

    /// Lets the held bytes go, with these after them.
    fn complete(&mut self, bytes: &[u8]) -> ArrayVec<u8, N>
        requires { length self.old.bytes.items + length bytes.now ≤ N }
        ensures unit { result.items ≡ self.old.bytes.items ++ bytes.now }
        ensures held { self.new.bytes.items ≡ [] }
    {
        let mut unit = self.bytes.take();
        let _ = unit.try_extend_from_slice(bytes);
        unit
    }
}
