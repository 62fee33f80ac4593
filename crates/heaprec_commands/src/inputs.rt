//! Names of files that mean standard input.
ghost use Rattle.std.specs.Prelude.{◌≡◌, ◌<◌, ◌≤◌, length, map};
ghost use Rattle.std.specs.Option.{option_copied, option_to_list};
ghost use Rattle.heaprec_commands.specs.RecordWords.{inputs};
ghost use Rattle.heaprec_commands.specs.Requests.{inputs_named};

/// How many of the names are `-`.
fn inputs(names: &[&str]) -> usize
    ensures count { result ≡ inputs (map (λ name. name.now) names.now) }
    ensures within { result ≤ length names.now }
{
    let mut count = 0usize;
    'names: for name in names {
        if *name == "-" {
            count += 1;
        }
    }
    count
}

/// The same of one name, if there is one.
fn input(name: Option<&str>) -> usize
    ensures count { result ≡ inputs (option_to_list (option_copied name.entry)) }
    ensures within { result ≤ 1 }
{
    match name {
        Some(name) if name == "-" => 1,
        _ => 0,
    }
}

/// How many of all names are `-`.
pub fn inputs_in(modules: Option<&str>, scripts: &[&str], trace: Option<&str>) -> usize
    requires { length scripts.now ≤ 64 }
    ensures { result ≡ inputs_named modules.entry scripts.now trace.entry }
{
    input(modules) + (inputs(scripts) + input(trace))
}
