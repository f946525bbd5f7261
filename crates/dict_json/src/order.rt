//! Entries in outline order, one for each outline; and members in order of their keys, one for each key.

ghost use Rattle.std.specs.Prelude.{◌≡◌, ◌-◌, length, map, IfOk, OnOk};
ghost use Rattle.serde_json.specs.Data.{no_members};
ghost use Rattle.dict_json.specs.Dictionaries.{last_of_each};
ghost use Rattle.dict_json.specs.Reading.{members_of};
ghost use Rattle.dict_json.specs.inside.Texts.{as_member, put_texts};

use crate::dictionaries::DictEntry;
use crate::members::Member;
use std::alloc::AllocError;

/// Puts entries into outline order and keeps the last one of each outline. Returns how many were left out.
pub(crate) fn keep_last_of_each(entries: &mut Vec<DictEntry>) -> Result<u64, AllocError>
    ensures entries { OnOk result (entries.new.items ≡ last_of_each entries.old.items) }
    ensures left_out { IfOk result (λ left_out. left_out ≡
        length entries.old.items - length (last_of_each entries.old.items)) }
{
    let all = entries.len();
    entries.reverse();
    entries.sort_by(|a, b| a.outline().cmp(b.outline()))?;
    entries.dedup_by(|entry, kept| entry.outline() == kept.outline());
    Ok((all - entries.len()) as u64)
}

/// Puts members into order of their keys' bytes and keeps the last one of each key.
pub(crate) fn keep_last_of_each_key(members: &mut Vec<Member<'_>>) -> Result<(), AllocError>
    ensures { OnOk result (map as_member members.new.items
        ≡ members_of (put_texts members.old.items no_members)) }
{
    members.reverse();
    members.sort_by(|a, b| a.key().cmp(b.key()))?;
    members.dedup_by(|member, kept| member.key() == kept.key());
    Ok(())
}
