// Bytes of an object, in place.
ghost use Rattle.std.specs.Prelude.{◌≡◌, ◌+◌, ◌-◌, ◌≤◌, [], ◌++◌, length, take, drop, replicate, vec_len, vec_capacity};
ghost use Rattle.mj_store.specs.Object.{written};

// Zeros from the end of the bytes up to `at`.
fn fill_up(bytes: &mut Vec<u8>, at: usize)
    requires { at ≤ vec_capacity bytes.old }
    ensures items { bytes.new.items ≡ bytes.old.items ++ replicate (at - length bytes.old.items) 0 }
    ensures capacity { vec_capacity bytes.old ≤ vec_capacity bytes.new }
{
    if bytes.len() < at {
        bytes.resize(at, 0).unwrap();
    }
}

// These bytes over those at `at`.
fn overwrite(bytes: &mut Vec<u8>, at: usize, new: &[u8])
    requires { at + length new.now ≤ length bytes.old.items }
    ensures items { bytes.new.items ≡ take at bytes.old.items ++ new.now ++ drop (at + length new.now) bytes.old.items }
    ensures capacity { vec_capacity bytes.old ≤ vec_capacity bytes.new }
{
    for i in 0..new.len() {
        bytes[at + i] = new[i];
    }
}

// These bytes at `at`, a gap before them filled with zeros. There is room for them.
pub fn write(bytes: &mut Vec<u8>, at: usize, new: &[u8])
    requires { at + length new.now ≤ vec_capacity bytes.old }
    ensures { bytes.new.items ≡ written at new.now bytes.old.items }
{
    fill_up(bytes, at);
    let kept = new.len().min(bytes.len() - at);
    overwrite(bytes, at, &new[..kept]);
    bytes.extend_from_slice(&new[kept..]).unwrap();
}
