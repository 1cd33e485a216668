//! Words between commas.
ghost use Rattle.std.specs.Prelude.{◌≡◌, ◌<◌, ◌≤◌, ◌∷◌, [], length, MatchOption};
ghost use Rattle.std.specs.Option.{option_map};
ghost use Rattle.cli_read.specs.Reading.{words, words_behind, behind};
ghost use Rattle.cli_text.specs.Cli.{layer_start, polyline_start, hatches_start};
ghost use Rattle.cli_read.specs.Form.{count_start};

use text_scan::first_at;

/// The first word of a text, and what stands behind it, from its comma on.
pub fn first_word(text: &[u8]) -> (&[u8], &[u8])
    ensures words { words text.now ≡ result.0.now ∷ words_behind result.1.now }
    ensures within { length result.1.now ≤ length text.now }
{
    let at = first_at(text, b',');
    (&text[..at], &text[at..])
}

/// The word behind a comma, and what stands behind it.
pub fn next_word(rest: &[u8]) -> Option<(&[u8], &[u8])>
    ensures words { MatchOption result (words_behind rest.now ≡ [])
        (λ r. words_behind rest.now ≡ r.0.now ∷ words_behind r.1.now) }
    ensures shorter { MatchOption result (rest.now ≡ []) (λ r. length r.1.now < length rest.now) }
{
    match rest {
        [] => None,
        [_, text @ ..] => Some(first_word(text)),
    }
}

/// What stands behind the start of a layer's line, or none where it is another line.
#[tactic(auto, unfolding(cli_text::specs::Cli::layer_start, crate::specs::Reading::behind))]
pub fn behind_layer_start(line: &[u8]) -> Option<&[u8]>
    ensures { option_map (λ r. r.now) result ≡ behind layer_start line.now }
{
    line.strip_prefix(b"$$LAYER/".as_slice())
}

/// What stands behind the start of a polyline of part 1, or none where it is another line.
#[tactic(auto, unfolding(cli_text::specs::Cli::polyline_start, crate::specs::Reading::behind))]
pub fn behind_polyline_start(line: &[u8]) -> Option<&[u8]>
    ensures { option_map (λ r. r.now) result ≡ behind polyline_start line.now }
{
    line.strip_prefix(b"$$POLYLINE/1,".as_slice())
}

/// What stands behind the start of hatches of part 1, or none where it is another line.
#[tactic(auto, unfolding(cli_text::specs::Cli::hatches_start, crate::specs::Reading::behind))]
pub fn behind_hatches_start(line: &[u8]) -> Option<&[u8]>
    ensures { option_map (λ r. r.now) result ≡ behind hatches_start line.now }
{
    line.strip_prefix(b"$$HATCHES/1,".as_slice())
}

/// What stands behind the start of the line with the number of layers, or none where it is another line.
#[tactic(auto, unfolding(crate::specs::Form::count_start, crate::specs::Reading::behind))]
pub fn behind_count_start(line: &[u8]) -> Option<&[u8]>
    ensures { option_map (λ r. r.now) result ≡ behind count_start line.now }
{
    line.strip_prefix(b"$$LAYERS/".as_slice())
}
