//! Damage as text.

ghost use Rattle.std.specs.Prelude.{◌≡◌, ◌++◌, ◌∷◌, OnOk};
ghost use Rattle.mj_texts.specs.DamageText.{damage_text, bad_directory_text};

use crate::text::{Word, append_line, append_numbers};
use mj_base::{Damage, Ino, Items};
use std::alloc::AllocError;

/// Appends the line of a damage.
pub fn append_damage(damage: &Damage, out: &mut Vec<u8>) -> Result<(), AllocError>
    ensures { OnOk result (out.new.items ≡ out.old.items ++ damage_text damage.now) }
{
    match damage {
        Damage::Unbuilt => append_numbers("damage Unbuilt", &[], out),
        Damage::HeaderMissing => append_numbers("damage HeaderMissing", &[], out),
        Damage::HeaderBad(at) => append_numbers("damage HeaderBad", &[*at], out),
        Damage::HeaderOrder => append_numbers("damage HeaderOrder", &[], out),
        Damage::Legacy => append_numbers("damage Legacy", &[], out),
        Damage::Hole(at) => append_numbers("damage Hole", &[*at], out),
        Damage::BadSentinel(at) => append_numbers("damage BadSentinel", &[*at], out),
        Damage::BadLength(at, length) => append_numbers(
            "damage BadLength",
            &[*at, u64::from(*length)],
            out,
        ),
        Damage::BadStart(at, found) => append_numbers("damage BadStart", &[*at, *found], out),
        Damage::CutEntry(at) => append_numbers("damage CutEntry", &[*at], out),
        Damage::BadEvent(at, offset) => append_numbers("damage BadEvent", &[*at, *offset], out),
        Damage::NoSubtreeMap(at) => append_numbers("damage NoSubtreeMap", &[*at], out),
        Damage::TableBad(name) => append_line(
            &[Word::Text("damage TableBad"), Word::Object(*name)],
            out,
        ),
        Damage::DirfragBad(ino, key) => append_bad_directory(*ino, key, out),
        Damage::DirfragMissing(ino) => append_numbers("damage DirfragMissing", &[ino.0], out),
        Damage::TwoPrimaries(ino) => append_numbers("damage TwoPrimaries", &[ino.0], out),
        Damage::NoPrimary(ino) => append_numbers("damage NoPrimary", &[ino.0], out),
        Damage::BadLinks(ino) => append_numbers("damage BadLinks", &[ino.0], out),
        Damage::BadNext(ino) => append_numbers("damage BadNext", &[ino.0], out),
        Damage::BadOpen(client, ino) => append_numbers(
            "damage BadOpen",
            &[u64::from(client.0), ino.0],
            out,
        ),
        Damage::BadSession(client) => append_numbers(
            "damage BadSession",
            &[u64::from(client.0)],
            out,
        ),
        Damage::OverLimit(n) => append_numbers("damage OverLimit", &[*n], out),
    }
}

// The key is printed where it is not empty.
fn append_bad_directory(ino: Ino, key: &Items<u8>, out: &mut Vec<u8>) -> Result<(), AllocError>
    ensures { OnOk result (out.new.items ≡ out.old.items ++ bad_directory_text ino key.now) }
{
    if key.is_empty() {
        append_numbers("damage DirfragBad", &[ino.0], out)
    } else {
        append_line(
            &[
                Word::Text("damage DirfragBad"),
                Word::Number(ino.0),
                Word::Escaped(key.as_slice()),
            ],
            out,
        )?;
        Ok(())
    }
}
