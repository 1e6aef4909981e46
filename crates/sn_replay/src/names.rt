//! The devices that have begun.

ghost use Rattle.std.specs.Prelude.{◌≡◌, OnOk, Some};
ghost use Rattle.std.specs.List.{list_any};
ghost use Rattle.std.specs.Str.{bytes_eq};
ghost use Rattle.sn_course.specs.Stages.{names_with};

use sn_string::{OwnedList, Text, TryClone};
use std::alloc::{AllocError, Global};

/// A device begins with its first line.
pub(crate) fn add_name(
    alloc: Global,
    names: &mut OwnedList<Text>,
    name: &Text,
) -> Result<(), AllocError>
    ensures { OnOk result (names.new ≡ names_with names.old (Some name.now)) }
{
    if is_among(names.as_slice(), name) {
        return Ok(());
    }
    let name = name.try_clone(alloc)?;
    names.push(name)
}

fn is_among(names: &[Text], name: &Text) -> bool
    ensures { result ≡ list_any (λ n. bytes_eq n name.now) names.now }
{
    names.iter().any(|n| is_name(n, name))
}

fn is_name(one: &Text, other: &Text) -> bool
    ensures { result ≡ bytes_eq one.now other.now }
{
    one.as_str() == other.as_str()
}
