// Laws of ascending tables and of loops over arrays, over any element type, in specs/; and the moves of elements that every table makes.

#![tactic(auto)]

ghost use Rattle.std.specs.Prelude.{◌≡◌, ◌+◌, ◌-◌, ◌≤◌, ◌<◌, length, take};
ghost use Rattle.laws.specs.Place.{insert_at, remove_at};
ghost use Rattle.laws.specs.Parts.{pasted};

// One element more among the first n, before place at: the later ones move up. The element is carried along, put down where the next
// is taken up: by `copy_within` a short row takes longer.
pub fn insert_at<T: Copy>(elements: &mut [T], n: usize, at: usize, element: T)
    requires { (n < length elements.old) × (at ≤ n) }
    ensures kept { length elements.new ≡ length elements.old }
    ensures put_in { take (n + 1) elements.new ≡ insert_at at element (take n elements.old) }
{
    let mut carried = element;
    for i in at..n {
        let next = elements[i];
        elements[i] = carried;
        carried = next;
    }
    elements[n] = carried;
}

// The element at place at taken out of the first n: the later ones move down.
pub fn remove_at<T: Copy>(elements: &mut [T], n: usize, at: usize)
    requires { (n ≤ length elements.old) × (at < n) }
    ensures kept { length elements.new ≡ length elements.old }
    ensures taken_out { take (n - 1) elements.new ≡ remove_at at (take n elements.old) }
{
    for i in at..n - 1 {
        elements[i] = elements[i + 1];
    }
}

// A list laid over the elements from a place on; what stands around them is unchanged.
pub fn paste<T: Copy>(elements: &mut [T], at: usize, list: &[T])
    requires { at + length list.now ≤ length elements.old }
    ensures { elements.new ≡ pasted elements.old at list.now }
{
    for i in 0..list.len() {
        elements[at + i] = list[i];
    }
}

// What a call leaves, and what it answers.
#[derive(Clone, Copy)]
pub struct After<S, A> {
    pub left: S,
    pub answer: A,
}
