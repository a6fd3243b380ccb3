//! Partitions by name, made of a list of them without memory.

ghost use Rattle.std.specs.Prelude.{◌≡◌, ◌≢◌, [], All};
ghost use Rattle.gob_device.specs.Supply.{IsListed, listing_of};
ghost use Rattle.gob_io.specs.ByName.{table_of};

use gob_memory::find;
use gob_plan::{Bytes, Text};

/// The partitions in byte order of names, of equal names the last one.
pub fn sort_by_name(mut parts: Vec<(Text, Bytes)>) -> Vec<(Text, Bytes)>
    requires { All (λ p. p.0 ≢ []) parts.items }
    ensures table { result.items ≡ table_of parts.items }
    ensures listed { IsListed (listing_of result.items) }
{
    let mut done = 0;
    while done < parts.len() {
        let (name, bytes) = parts.remove(done);
        prove!(bytes.as_slice().len() <= i64::MAX as usize);
        match find(&parts[..done], name.as_str()) {
            Ok(place) => parts[place] = (name, bytes),
            Err(place) => {
                if let Err(_) = parts.insert(place, (name, bytes)) {
                    unreachable!();
                }
                done += 1;
            }
        }
    }
    parts
}
