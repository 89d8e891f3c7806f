// A list that has room for so many values, without a heap.
ghost use Rattle.std.specs.Prelude.{◌≡◌, ◌≤◌, ◌<◌, [], ◌∷◌, ◌++◌, length, nat_eq};

// Up to N values.
#[derive(Drop)]
pub struct UpTo<T: Copy, const N: usize> {
    values: [T; N],
    count: usize,
    ghost room: { count ≤ N },
}

impl<T: Copy, const N: usize> UpTo<T, N> {
    ghost use Rattle.models_masks.specs.UpTo.{items};

    // None yet; the value stands in the places that are not used.
    #[inline(always)]
    pub fn new(blank: T) -> UpTo<T, N>
        ensures { items result ≡ [] }
    {
        UpTo {
            values: [blank; N],
            count: 0,
        }
    }

    // No value any more.
    pub fn clear(&mut self)
        ensures { items self.new ≡ [] }
    {
        self.count = 0;
    }

    // The values.
    #[inline(always)]
    pub fn as_slice(&self) -> &[T]
        ensures { result.now ≡ items self.now }
    {
        &self.values[..self.count]
    }

    // Whether there is no room for another.
    #[inline(always)]
    pub fn is_full(&self) -> bool
        ensures { result ≡ nat_eq (length (items self.now)) N }
    {
        self.count == N
    }

    // One value more, behind the others.
    #[inline(always)]
    pub fn push(&mut self, value: T)
        requires { length (items self.old) < N }
        ensures { items self.new ≡ items self.old ++ value ∷ [] }
    {
        self.values[self.count] = value;
        self.count += 1;
    }
}
