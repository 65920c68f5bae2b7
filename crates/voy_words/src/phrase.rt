ghost use Rattle.std.specs.Prelude.{◌≡◌, map, option_map, string_bytes};
ghost use Rattle.voy_words.specs.Table.{number_of, phrase_words};
ghost use Rattle.voy_words.specs.Reading.{after, found, found_phrase, phrases};

/// The words with which a command begins, in the order of the table.
#[derive(Clone, Copy, Debug, PartialEq, Eq)]
pub enum Phrase {
    ExportFromSource,
    ExportFromTarget,
    ImportToTarget,
    ImportToSource,
    CutoverToTarget,
    CutoverToSource,
    LoadSource,
    CutoverStatus,
    Report,
    ShowTarget,
    ShowSource,
    Rehearse,
}

const PHRASES: [Phrase; 12] = [
    Phrase::ExportFromSource,
    Phrase::ExportFromTarget,
    Phrase::ImportToTarget,
    Phrase::ImportToSource,
    Phrase::CutoverToTarget,
    Phrase::CutoverToSource,
    Phrase::LoadSource,
    Phrase::CutoverStatus,
    Phrase::Report,
    Phrase::ShowTarget,
    Phrase::ShowSource,
    Phrase::Rehearse,
];

impl Phrase {
    /// The phrase's words.
    pub fn words(self) -> &'static [&'static str]
        ensures { map (λ word. word.now) result.now ≡ phrase_words self }
    {
        match self {
            Phrase::ExportFromSource => &["export", "data", "from", "source"],
            Phrase::ExportFromTarget => &["export", "data", "from", "target"],
            Phrase::ImportToTarget => &["import", "data", "to", "target"],
            Phrase::ImportToSource => &["import", "data", "to", "source"],
            Phrase::CutoverToTarget => &["initiate", "cutover", "to", "target"],
            Phrase::CutoverToSource => &["initiate", "cutover", "to", "source"],
            Phrase::LoadSource => &["load", "source"],
            Phrase::CutoverStatus => &["cutover", "status"],
            Phrase::Report => &["get", "data-migration-report"],
            Phrase::ShowTarget => &["show", "target"],
            Phrase::ShowSource => &["show", "source"],
            Phrase::Rehearse => &["rehearse"],
        }
    }

    /// The phrase's number in the table, from 0.
    pub fn number(self) -> u32
        ensures { result ≡ number_of self }
    {
        match self {
            Phrase::ExportFromSource => 0,
            Phrase::ExportFromTarget => 1,
            Phrase::ImportToTarget => 2,
            Phrase::ImportToSource => 3,
            Phrase::CutoverToTarget => 4,
            Phrase::CutoverToSource => 5,
            Phrase::LoadSource => 6,
            Phrase::CutoverStatus => 7,
            Phrase::Report => 8,
            Phrase::ShowTarget => 9,
            Phrase::ShowSource => 10,
            Phrase::Rehearse => 11,
        }
    }
}

/// The phrase with which the words begin, and the words behind it.
#[tactic(auto, unfolding(crate::specs::Reading::phrases))]
pub fn find_phrase(words: &[String]) -> Option<(Phrase, &[String])>
    ensures { option_map (λ p. (p.0, map string_bytes p.1.now)) result ≡ found phrases (map string_bytes words.now) }
{
    first_of(&PHRASES, words)
}

/// The first of these phrases with which the words begin, and the words behind it.
fn first_of<'a>(phrases: &[Phrase], words: &'a [String]) -> Option<(Phrase, &'a [String])>
    ensures { option_map (λ p. (p.0, map string_bytes p.1.now)) result ≡ found phrases.now (map string_bytes words.now) }
{
    for phrase in phrases {
        if let Some(rest) = after(phrase.words(), words) {
            return Some((*phrase, rest));
        }
    }
    None
}

/// The words behind these first ones.
fn after<'a>(first: &[&str], words: &'a [String]) -> Option<&'a [String]>
    ensures { option_map (λ rest. map string_bytes rest.now) result ≡ after (map (λ word. word.now) first.now) (map string_bytes words.now) }
{
    let mut rest = words;
    for word in first {
        match rest {
            [next, behind @ ..] => {
                if next.as_str() != *word {
                    return None;
                }
                rest = behind;
            }
            [] => return None,
        }
    }
    Some(rest)
}
