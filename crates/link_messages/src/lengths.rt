// "62, an empty message or a length other than the map's".
ghost use Rattle.std.specs.Prelude.{cond, ◌≡◌, ◌/◌, ◌%◌, ◌≤◌, eqb};
ghost use Rattle.link_messages.specs.Message.{length_of, has_length};

// Whether a bit of the map stands; bit i has the value 2^i.
pub fn stands(map: u8, value: u8) -> bool
    requires { 1 ≤ value }
    ensures { result ≡ eqb (map / value % 2) 1 }
{
    map / value % 2 == 1
}

// The bytes of a field of w bytes, by its bit.
fn width_of(map: u8, value: u8, w: usize) -> usize
    requires { (1 ≤ value) × (w ≤ 8) }
    ensures { (result ≡ cond (eqb (map / value % 2) 1) w 0) × (result ≤ 8) }
{
    if stands(map, value) {
        return w;
    }
    0
}

// The map's length: every map has one, listed or not.
pub fn length_of(map: u8) -> usize
    ensures { result ≡ length_of map }
{
    let reading = width_of(map, 1, 8);
    let position = width_of(map, 2, 4);
    let node = width_of(map, 4, 1);
    let outcome = width_of(map, 8, 1);
    let activity = width_of(map, 16, 1);
    let number = width_of(map, 32, 1);
    1 + reading + position + node + outcome + activity + number
}

// Whether the bytes are as many as their map has.
pub fn has_length(bytes: &[u8]) -> bool
    ensures { result ≡ has_length bytes.now }
{
    let n = bytes.len();
    if n == 0 {
        return false;
    }
    n == length_of(bytes[0])
}
