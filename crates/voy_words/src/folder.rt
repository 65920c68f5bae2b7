ghost use Rattle.std.specs.Prelude.{◌≡◌, map, option_map, string_bytes};
ghost use Rattle.voy_words.specs.Folder.{export_dir, non_empty};

/// The folder that the words of the program name: the second word, exactly where the first is `--export-dir` and the
/// second is not empty.
#[tactic(auto, unfolding(crate::specs::Folder::export_dir))]
pub fn export_dir(words: &[String]) -> Option<&str>
    ensures { option_map (λ folder. folder.now) result ≡ export_dir (map string_bytes words.now) }
{
    match words {
        [option, folder, _command @ ..] => {
            if option.as_str() == "--export-dir" {
                non_empty(folder.as_str())
            } else {
                None
            }
        }
        _ => None,
    }
}

fn non_empty(text: &str) -> Option<&str>
    ensures { option_map (λ folder. folder.now) result ≡ non_empty text.now }
{
    if text.is_empty() { None } else { Some(text) }
}
