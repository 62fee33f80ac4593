//! Names as values of options.
ghost use Rattle.std.specs.Prelude.{◌≡◌, option_map};
ghost use Rattle.commands.specs.NameWords.{meaning_in, meaning_or, names_in};

/// What an option's value means among these names: a default where the option isn't given.
pub fn meaning_or<T: Copy>(default: T, names: &[(&str, T)], value: Option<&str>) -> Option<T>
    ensures { result ≡ meaning_or default (names_in names.now)
        (option_map (λ text. text.now) value.entry) }
{
    match value {
        Some(name) => meaning_in(names, name),
        None => Some(default),
    }
}

/// What a name means among these.
fn meaning_in<T: Copy>(names: &[(&str, T)], name: &str) -> Option<T>
    ensures { result ≡ meaning_in (names_in names.now) name.now }
{
    for known in names {
        if name == known.0 {
            return Some(known.1);
        }
    }
    None
}
