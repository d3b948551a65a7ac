//! The size classes.
ghost use Rattle.std.specs.Prelude.{◌≡◌, ◌+◌, ◌<◌, ◌≤◌, ◌↔◌, IsNone, IfSome};
ghost use Rattle.layout.specs.Sizes.{greatest_block};
ghost use Rattle.small_pools.specs.Classes.{size_of, order_of, capacity_of, IsClass, IsLeastClass};

use layout::{GREATEST_BLOCK, PAGE};

/// How many classes there are.
pub const CLASSES: u8 = 37;

/// The bytes of an object of each class.
const SIZES: [u32; 37] = [
    32, 40, 48, 56, 64, 80, 96, 112, 128, 160, 192, 224, 256, 320, 384, 448, 512, 640, 768, 896,
    1024, 1280, 1536, 1792, 2048, 2560, 3072, 3584, PAGE, 5120, 6144, 7168, 8192, 10240, 12288,
    14336, 16384,
];

/// The order of the spans of each class.
const ORDERS: [u8; 37] = [
    0, 0, 0, 0, 0, 0, 0, 0, 0, 0, 0, 0, 0, 0, 0, 0, 0, 0, 0, 0, 0, 1, 1, 1, 1, 2, 2, 2, 2, 3, 3, 3,
    3, 4, 4, 4, 4,
];

/// How many objects a span of each class holds.
const CAPACITIES: [u8; 37] = [
    128, 102, 85, 73, 64, 51, 42, 36, 32, 25, 21, 18, 16, 12, 10, 9, 8, 6, 5, 4, 4, 6, 5, 4, 4, 6,
    5, 4, 4, 6, 5, 4, 4, 6, 5, 4, 4,
];

/// The least class that holds an object of the size in bytes. There is none above 16,384 bytes.
///
/// Classes are four per doubling, so the highest bit of the last byte's number gives the doubling, and the two bits
/// below it the class within it.
///
/// # Examples
/// ```
/// let class = class_of(100); // Some(7), whose objects have 112 bytes
/// let none = class_of(16_385); // None
/// ```
pub fn class_of(size: u32) -> Option<u8>
    ensures none { IsNone result ↔ (greatest_block < size) }
    ensures some { IfSome result (IsLeastClass size) }
    ensures bounds { IfSome result IsClass }
{
    if size > GREATEST_BLOCK {
        return None;
    }
    if size <= 32 {
        return Some(0);
    }
    Some(class_above(size - 1))
}

/// The class of the objects that are greater than so many bytes, by the least step.
fn class_above(last: u32) -> u8
    requires least { 32 ≤ last }
    requires most { last < greatest_block }
    ensures least { IsLeastClass (last + 1) result }
    ensures bounds { IsClass result }
{
    let doubling = 31 - last.leading_zeros();
    let quarter = (last >> (doubling - 2)) & 3;
    (4 * (doubling - 5) + quarter + 1) as u8
}

/// The bytes of an object of the class.
pub fn class_size(class: u8) -> u32
    requires { class < 37 }
    ensures value { result ≡ size_of class }
    ensures bounds { IsClass class }
{
    SIZES[class as usize]
}

/// The order of the spans from which a class's objects come.
pub fn class_order(class: u8) -> u8
    requires { class < 37 }
    ensures value { result ≡ order_of class }
    ensures most { result ≤ 4 }
{
    ORDERS[class as usize]
}

/// How many objects a span of the class holds.
pub fn class_capacity(class: u8) -> u8
    requires { class < 37 }
    ensures value { result ≡ capacity_of class }
    ensures least { 4 ≤ result }
    ensures most { result ≤ 128 }
{
    CAPACITIES[class as usize]
}
