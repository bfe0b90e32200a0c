//! A request of each command, and a term of each word. Definitions: specs/RefusedValues, specs/RefusedTerms. Tests: client_tests/src/parts.rt.
ghost use Rattle.std.specs.Prelude.{◌≡◌, option_map};
ghost use Rattle.wm_parts.specs.RefusedTerms.{term_form};
ghost use Rattle.wm_parts.specs.RefusedValues.{form_of};

/// A request of the command of this name, as an example. `None` if there is no such command.
pub(crate) fn form_of(name: &str) -> Option<&'static str>
    ensures { option_map (λ t. t.now) result ≡ form_of name.now }
{
    match name {
        "version" => Some("[\"version\"]"),
        "watch" => Some("[\"watch\",\"/proj\"]"),
        "watch-del" => Some("[\"watch-del\",\"/proj\"]"),
        "watch-list" => Some("[\"watch-list\"]"),
        "clock" => Some("[\"clock\",\"/proj\"]"),
        "since" => Some("[\"since\",\"/proj\",\"c:1:2:3\"]"),
        "query" => Some("[\"query\",\"/proj\",{\"fields\":[\"name\"]}]"),
        "subscribe" => Some("[\"subscribe\",\"/proj\",\"n\",{\"fields\":[\"name\"]}]"),
        "unsubscribe" => Some("[\"unsubscribe\",\"/proj\",\"n\"]"),
        "trigger" => Some("[\"trigger\",\"/proj\",{\"name\":\"n\",\"command\":[\"make\"]}]"),
        "trigger-list" => Some("[\"trigger-list\",\"/proj\"]"),
        "trigger-del" => Some("[\"trigger-del\",\"/proj\",\"n\"]"),
        "recrawl" => Some("[\"recrawl\",\"/proj\"]"),
        "observe" => Some("[\"observe\",\"/proj\",[[\"gone.c\",null]]]"),
        "listing" => Some("[\"listing\",\"/proj\",0,\"\",[]]"),
        "age-out" => Some("[\"age-out\",\"/proj\",3600]"),
        _ => None,
    }
}

/// How a term of this word is written. `None` if there is no such word.
pub(crate) fn term_form(word: &str) -> Option<&'static str>
    ensures { option_map (λ t. t.now) result ≡ term_form word.now }
{
    match word {
        "true" => Some("\"true\""),
        "false" => Some("\"false\""),
        "exists" => Some("\"exists\""),
        "empty" => Some("\"empty\""),
        "name" => Some("[\"name\",\"a.c\"] or [\"name\",\"src/a.c\",\"wholename\"]"),
        "suffix" => Some("[\"suffix\",\"c\"] or [\"suffix\",[\"c\",\"h\"]]"),
        "type" => Some("[\"type\",\"f\"]"),
        "size" => Some("[\"size\",\"gt\",10], with eq, ne, gt, ge, lt or le"),
        "match" => Some("[\"match\",\"*.c\"] or [\"match\",\"src/*.c\",\"wholename\"]"),
        "not" => Some("[\"not\",[\"suffix\",\"c\"]]"),
        "allof" => Some("[\"allof\",\"exists\",[\"suffix\",\"c\"]]"),
        "anyof" => Some("[\"anyof\",[\"suffix\",\"c\"],[\"suffix\",\"h\"]]"),
        _ => None,
    }
}
