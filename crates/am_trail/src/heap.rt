//! An indexed binary heap: variables in a row, and for each variable its place in the row plus one,
//! or 0 where it isn't there.

ghost use Rattle.std.specs.Prelude.{◌≡◌, ℕ, ◌+◌, ◌*◌, ◌^◌, ◌<◌, ◌≤◌, [], ◌∷◌, ◌++◌, length, slice_index, slice_set};
ghost use Rattle.std.specs.Prelude.{vec_len, vec_capacity, IfNone, IfSome};
ghost use Rattle.am_trail.specs.Orders.{comes_before};
ghost use Rattle.am_trail.specs.inside.Places.{IsPlaced, placed_variables};
ghost use Rattle.am_trail.specs.inside.Heaps.{IsFirstChild, IsHeapFrom, IsIndexedHeap, IsMoved, Rises, Sinks};

/// Whether a variable comes before another one.
fn comes_before(activities: &[u64], v: u32, w: u32) -> bool
    requires v { v < length activities.now }
    requires w { w < length activities.now }
    ensures { result ≡ comes_before activities.now v w }
{
    let first = activities[v as usize];
    let second = activities[w as usize];
    second < first || (first == second && v < w)
}

/// Writes a variable at a place.
fn put(heap: &mut [u32], places: &mut [u32], k: usize, v: u32)
    requires k { k < length heap.old }
    requires v { v < length places.old }
    requires small { length heap.old < 2 ^ 32 }
    ensures heap { heap.new ≡ slice_set heap.old k v }
    ensures places { places.new ≡ slice_set places.old v (k + 1) }
{
    heap[k] = v;
    places[v as usize] = (k + 1) as u32;
}

/// Moves the variable at a place towards the head, until its parent comes before it.
pub fn rise(activities: &[u64], heap: &mut [u32], places: &mut [u32], from: usize)
    requires placed { IsPlaced heap.old places.old }
    requires count { length activities.now ≡ length places.old }
    requires small { length places.old < 2 ^ 32 }
    requires from { from < length heap.old }
    requires rises { Rises activities.now heap.old from }
    ensures moved { IsMoved heap.old places.old heap.new places.new }
    ensures ordered { IsHeapFrom 0 activities.now heap.new }
{
    let v = heap[from];
    let mut k = from;
    while k > 0 {
        let parent = (k - 1) / 2;
        let w = heap[parent];
        if !comes_before(activities, v, w) {
            break;
        }
        put(heap, places, k, w);
        k = parent;
    }
    put(heap, places, k, v);
}

/// The child of a place that comes first, if there is one.
fn first_child(activities: &[u64], heap: &[u32], k: usize) -> Option<usize>
    requires below { (i : ℕ) → k < i → i < length heap.now → slice_index heap.now i < length activities.now }
    requires k { k < length heap.now }
    ensures none { IfNone result (length heap.now ≤ 2 * k + 1) }
    ensures some { IfSome result (IsFirstChild activities.now heap.now k) }
{
    let left = 2 * k + 1;
    if left >= heap.len() {
        return None;
    }
    let right = left + 1;
    if right < heap.len() && comes_before(activities, heap[right], heap[left]) {
        Some(right)
    } else {
        Some(left)
    }
}

/// Moves the variable at a place away from the head, until no child comes before it.
fn sink(activities: &[u64], heap: &mut [u32], places: &mut [u32], from: usize)
    requires placed { IsPlaced heap.old places.old }
    requires count { length activities.now ≡ length places.old }
    requires small { length places.old < 2 ^ 32 }
    requires from { from < length heap.old }
    ensures moved { IsMoved heap.old places.old heap.new places.new }
    ensures ordered { (low : ℕ)
        → Sinks low activities.now heap.old from → IsHeapFrom low activities.now heap.new }
{
    let v = heap[from];
    let mut k = from;
    while let Some(child) = first_child(activities, heap, k) {
        let w = heap[child];
        if !comes_before(activities, w, v) {
            break;
        }
        put(heap, places, k, w);
        k = child;
    }
    put(heap, places, k, v);
}

/// Makes a heap of variables that stand in any order.
pub fn order_all(activities: &[u64], heap: &mut [u32], places: &mut [u32])
    requires placed { IsPlaced heap.old places.old }
    requires count { length activities.now ≡ length places.old }
    requires small { length places.old < 2 ^ 32 }
    ensures moved { IsMoved heap.old places.old heap.new places.new }
    ensures ordered { IsHeapFrom 0 activities.now heap.new }
{
    let mut k = heap.len() / 2;
    while k > 0 {
        k -= 1;
        sink(activities, heap, places, k);
    }
}

/// Appends a variable that isn't there, for which there is room.
pub fn push(heap: &mut Vec<u32>, places: &mut [u32], v: u32)
    requires placed { IsPlaced heap.old.items places.old }
    requires room { length places.old ≤ vec_capacity heap.old }
    requires small { length places.old < 2 ^ 32 }
    requires v { v < length places.old }
    requires free { slice_index places.old v ≡ 0 }
    ensures heap { heap.new.items ≡ heap.old.items ++ v ∷ [] }
    ensures places { places.new ≡ slice_set places.old v (vec_len heap.old + 1) }
    ensures placed { IsPlaced heap.new.items places.new }
    ensures room { vec_capacity heap.old ≤ vec_capacity heap.new }
{
    heap.push_reserved(v);
    places[v as usize] = heap.len() as u32;
}

/// Puts a variable that isn't there in its place.
pub fn insert(activities: &[u64], heap: &mut Vec<u32>, places: &mut [u32], v: u32)
    requires heap { IsIndexedHeap activities.now heap.old.items places.old (vec_capacity heap.old) }
    requires v { v < length places.old }
    requires free { slice_index places.old v ≡ 0 }
    ensures heap { IsIndexedHeap activities.now heap.new.items places.new (vec_capacity heap.new) }
    ensures places { placed_variables places.new ≡ placed_variables (slice_set places.old v (vec_len heap.old + 1)) }
{
    let last = heap.len();
    push(heap, places, v);
    rise(activities, heap, places, last);
}

/// Fills the hole at the head with a variable, which then sinks.
fn refill(activities: &[u64], heap: &mut [u32], places: &mut [u32], v: u32)
    requires placed { IsPlaced (slice_set heap.old 0 v) (slice_set places.old v 1) }
    requires count { length activities.now ≡ length places.old }
    requires small { length places.old < 2 ^ 32 }
    requires some { 0 < length heap.old }
    requires sinks { Sinks 0 activities.now (slice_set heap.old 0 v) 0 }
    ensures moved { IsMoved (slice_set heap.old 0 v) (slice_set places.old v 1) heap.new places.new }
    ensures ordered { IsHeapFrom 0 activities.now heap.new }
{
    put(heap, places, 0, v);
    sink(activities, heap, places, 0);
}

/// Takes the variable at the head away, if there is one.
pub fn take_head(activities: &[u64], heap: &mut Vec<u32>, places: &mut [u32]) -> Option<u32>
    requires heap { IsIndexedHeap activities.now heap.old.items places.old (vec_capacity heap.old) }
    ensures heap { IsIndexedHeap activities.now heap.new.items places.new (vec_capacity heap.new) }
    ensures none { IfNone result (heap.old.items ≡ []) }
    ensures same { IfNone result (places.new ≡ places.old) }
    ensures some { IfSome result (λ v. 0 < length heap.old.items) }
    ensures first { IfSome result (λ v. slice_index heap.old.items 0 ≡ v) }
    ensures places { IfSome result (λ v. placed_variables places.new ≡ placed_variables (slice_set places.old v 0)) }
{
    let last = heap.pop()?;
    if heap.is_empty() {
        places[last as usize] = 0;
        return Some(last);
    }
    let first = heap[0];
    places[first as usize] = 0;
    refill(activities, heap, places, last);
    Some(first)
}
