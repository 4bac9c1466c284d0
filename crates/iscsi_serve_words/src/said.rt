//! What the words that clap read say.

ghost use Rattle.std.specs.Prelude.{◌≡◌, map, option_map};
ghost use Rattle.clap.specs.Words.{all_of, first_of, one_of};
ghost use Rattle.iscsi_serve_words.specs.Said.{IsFlag, rows_in};

use clap::ArgMatches;

// The value of a word, if it stands there.
#[tactic(auto, using(crate::proofs::RowLemmas::first_in_rows))]
pub(crate) fn value_of<'a>(asked: &ArgMatches<'a>, name: &str) -> Option<&'a str>
    ensures { option_map (λ text. text.now) result ≡ first_of name.now (rows_in asked.now) }
{
    asked.get_str(name)
}

// Whether a flag stands there.
#[tactic(auto, using(crate::proofs::RowLemmas::one_in_rows))]
pub(crate) fn flag_of(asked: &ArgMatches<'_>, name: &str) -> bool
    ensures { IsFlag (one_of name.now (rows_in asked.now)) result }
{
    asked.get_flag(name)
}

// The values of a word that may stand there several times, if it stands there.
#[tactic(auto, using(crate::proofs::RowLemmas::all_in_rows))]
pub(crate) fn values_of<'b, 'a>(asked: &'b ArgMatches<'a>, name: &str) -> Option<&'b [&'a str]>
    ensures { option_map (λ texts. map (λ text. text.now) texts.now) result
        ≡ all_of name.now (rows_in asked.now) }
{
    asked.get_strs(name)
}
