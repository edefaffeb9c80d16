//! Worked examples of the definitions: the numbers of the profile that a text gives, or that it gives none, and why. Each clause is a
//! text, and the functions do nothing.

ghost use Rattle.std.specs.Prelude.{[], ◌∷◌, ◌≡◌, ◌++◌, Some, None, codes};
ghost use Rattle.s66_command.specs.{standard_but, hint_in_text, wrong_name, object_of_list, profile_numbers_in_text};

/// Texts that give a profile.
#[tactic(auto, unfolding(serde_json::proofs::OnLiterals::serde_json_on_literals))]
pub fn profile_examples()
    ensures no_key { profile_numbers_in_text (codes "{}") ≡
        Some (3 ∷ 3 ∷ 4 ∷ 4 ∷ 3 ∷ 10 ∷ 29 ∷ 8 ∷ 3 ∷ 8 ∷ 1 ∷ 1 ∷ 1 ∷ 1 ∷ 2 ∷ 1 ∷ 2 ∷ []) }
    ensures a_time { profile_numbers_in_text (codes "{\"boolean\":5}") ≡ standard_but 0 5 }
    ensures copies { profile_numbers_in_text (codes "{\"units_multiply\":3}") ≡ standard_but 14 3 }
    ensures least { profile_numbers_in_text (codes "{\"boolean\":1}") ≡ standard_but 0 1 }
    ensures greatest { profile_numbers_in_text (codes "{\"boolean\":100}") ≡ standard_but 0 100 }
    ensures blanks { profile_numbers_in_text (codes " \t\r\n{ \"load\"\n:\t2 } \r\n") ≡ standard_but 9 2 }
    ensures escaped_key { profile_numbers_in_text (codes "{\"\\u0062oolean\":5}") ≡ standard_but 0 5 }
    ensures last_of_equal_keys { profile_numbers_in_text (codes "{\"boolean\":5,\"boolean\":7}") ≡ standard_but 0 7 }
    ensures only_the_last_counts { profile_numbers_in_text (codes "{\"boolean\":\"x\",\"boolean\":7}") ≡
        standard_but 0 7 }
    ensures each_key { profile_numbers_in_text (
        codes "{\"units_increment\":27,\"units_divide\":26,\"units_multiply\":25,\"units_longadd\":24,\"units_add\":23,\"units_shift\":22,\"units_boolean\":21," ++
        codes "\"load\":20,\"increment\":19,\"population\":18,\"divide\":17,\"multiply\":16,\"longadd\":15,\"add\":14,\"normalise\":13,\"shift\":12,\"boolean\":11}") ≡
        Some (11 ∷ 12 ∷ 13 ∷ 14 ∷ 15 ∷ 16 ∷ 17 ∷ 18 ∷ 19 ∷ 20 ∷ 21 ∷ 22 ∷ 23 ∷ 24 ∷ 25 ∷ 26 ∷ 27 ∷ []) }
{}

/// Texts that give no profile: JSON that is no such object, and what isn't JSON.
#[tactic(auto, unfolding(serde_json::proofs::OnLiterals::serde_json_on_literals))]
pub fn refusal_examples()
    ensures zero { profile_numbers_in_text (codes "{\"boolean\":0}") ≡ None }
    ensures above { profile_numbers_in_text (codes "{\"boolean\":101}") ≡ None }
    ensures far_above { profile_numbers_in_text (codes "{\"boolean\":18446744073709551621}") ≡ None }
    ensures text { profile_numbers_in_text (codes "{\"boolean\":\"3\"}") ≡ None }
    ensures point { profile_numbers_in_text (codes "{\"boolean\":3.0}") ≡ None }
    ensures exponent { profile_numbers_in_text (codes "{\"boolean\":3e0}") ≡ None }
    ensures minus_zero { profile_numbers_in_text (codes "{\"boolean\":-0}") ≡ None }
    ensures minus { profile_numbers_in_text (codes "{\"boolean\":-3}") ≡ None }
    ensures plus { profile_numbers_in_text (codes "{\"boolean\":+3}") ≡ None }
    ensures leading_zero { profile_numbers_in_text (codes "{\"boolean\":03}") ≡ None }
    ensures truth { profile_numbers_in_text (codes "{\"boolean\":true}") ≡ None }
    ensures null { profile_numbers_in_text (codes "{\"boolean\":null}") ≡ None }
    ensures array_of_number { profile_numbers_in_text (codes "{\"boolean\":[3]}") ≡ None }
    ensures other_key { profile_numbers_in_text (codes "{\"branch\":3}") ≡ None }
    ensures upper_case { profile_numbers_in_text (codes "{\"Boolean\":3}") ≡ None }
    ensures one_bad_key { profile_numbers_in_text (codes "{\"boolean\":3,\"branch\":3}") ≡ None }
    ensures array { profile_numbers_in_text (codes "[]") ≡ None }
    ensures number { profile_numbers_in_text (codes "3") ≡ None }
    ensures cut { profile_numbers_in_text (codes "{") ≡ None }
    ensures nothing { profile_numbers_in_text [] ≡ None }
    ensures only_blanks { profile_numbers_in_text (codes " \n") ≡ None }
    ensures more { profile_numbers_in_text (codes "{\"boolean\":5} x") ≡ None }
    ensures two_objects { profile_numbers_in_text (codes "{} {}") ≡ None }
    ensures last_comma { profile_numbers_in_text (codes "{\"boolean\":1,}") ≡ None }
{}

/// Lists, which give what the JSON objects give for which they stand, and texts that are no lists.
#[tactic(auto, unfolding(serde_json::proofs::OnLiterals::serde_json_on_literals))]
pub fn list_examples()
    ensures object { object_of_list (codes "units_add=2,load=5") ≡ codes "{\"units_add\":2,\"load\":5}" }
    ensures two_names { profile_numbers_in_text (codes "units_add=2,load=5") ≡
        Some (3 ∷ 3 ∷ 4 ∷ 4 ∷ 3 ∷ 10 ∷ 29 ∷ 8 ∷ 3 ∷ 5 ∷ 1 ∷ 1 ∷ 2 ∷ 1 ∷ 2 ∷ 1 ∷ 2 ∷ []) }
    ensures one_name { profile_numbers_in_text (codes "boolean=100") ≡ standard_but 0 100 }
    ensures last_of_equal_names { profile_numbers_in_text (codes "boolean=0,boolean=7") ≡ standard_but 0 7 }
    ensures no_number { profile_numbers_in_text (codes "units_add") ≡ None }
    ensures no_digit { profile_numbers_in_text (codes "units_add=") ≡ None }
    ensures no_name { profile_numbers_in_text (codes "=2") ≡ None }
    ensures last_comma { profile_numbers_in_text (codes "units_add=2,") ≡ None }
    ensures first_comma { profile_numbers_in_text (codes ",units_add=2") ≡ None }
    ensures semicolon { profile_numbers_in_text (codes "units_add=2;load=5") ≡ None }
    ensures blank { profile_numbers_in_text (codes "units_add=2, load=5") ≡ None }
    ensures leading_zero { profile_numbers_in_text (codes "units_add=02") ≡ None }
    ensures point { profile_numbers_in_text (codes "units_add=2.0") ≡ None }
    ensures word { profile_numbers_in_text (codes "boolean=true,boolean=7") ≡ None }
    ensures quotes { profile_numbers_in_text (codes "boolean==,,boolean=7") ≡ None }
    ensures zero { profile_numbers_in_text (codes "boolean=0") ≡ None }
    ensures other_name { profile_numbers_in_text (codes "branch=3") ≡ None }
{}

/// Why texts give no profile.
#[tactic(auto, unfolding(serde_json::proofs::OnLiterals::serde_json_on_literals))]
pub fn hint_examples()
    ensures file_name { hint_in_text (codes "slow.json") ≡ codes "no JSON object such as {\"units_add\":2}, nor units_add=2" }
    ensures nothing { hint_in_text [] ≡ codes "no JSON object such as {\"units_add\":2}, nor units_add=2" }
    ensures array { hint_in_text (codes "[]") ≡ codes "no JSON object such as {\"units_add\":2}, nor units_add=2" }
    ensures other_key { hint_in_text (codes "{\"units_mult\":1}") ≡
        codes "no number of a profile is called \"units_mult\"\nthe names are boolean, shift, normalise, add, longadd, multiply, divide,\n" ++
        codes "population, increment, load, units_boolean, units_shift, units_add,\nunits_longadd, units_multiply, units_divide, units_increment" }
    ensures zero { hint_in_text (codes "{\"multiply\":0}") ≡ codes "\"multiply\" is no whole number 1 to 100" }
    ensures above { hint_in_text (codes "{\"multiply\":101}") ≡ codes "\"multiply\" is no whole number 1 to 100" }
    ensures text { hint_in_text (codes "{\"multiply\":\"5\"}") ≡ codes "\"multiply\" is no whole number 1 to 100" }
    ensures key_before_value { hint_in_text (codes "{\"branch\":0}") ≡
        wrong_name (codes "\"branch\"") }
    ensures first_in_order_of_keys { hint_in_text (codes "{\"units_mult\":1,\"multiply\":0}") ≡
        codes "\"multiply\" is no whole number 1 to 100" }
    ensures after_good_keys { hint_in_text (codes "{\"add\":5,\"multiply\":0,\"load\":2}") ≡
        codes "\"multiply\" is no whole number 1 to 100" }
    ensures last_of_equal_keys { hint_in_text (codes "{\"multiply\":5,\"multiply\":0}") ≡
        codes "\"multiply\" is no whole number 1 to 100" }
    ensures newline { hint_in_text (codes "{\"add\\n\":5}") ≡ wrong_name (codes "\"add\\n\"") }
    ensures escape { hint_in_text (codes "{\"\\u001b[2J\":5}") ≡
        wrong_name (codes "\"\\u001b[2J\"") }
    ensures quote { hint_in_text (codes "{\"\\\"\":5}") ≡ wrong_name (codes "\"\\\"\"") }
    ensures in_a_list { hint_in_text (codes "units_add=2,units_mult=1") ≡ wrong_name (codes "\"units_mult\"") }
    ensures above_in_a_list { hint_in_text (codes "multiply=101") ≡ codes "\"multiply\" is no whole number 1 to 100" }
    ensures no_list { hint_in_text (codes "units_add=2;load=5") ≡
        codes "no JSON object such as {\"units_add\":2}, nor units_add=2" }
    ensures profile { hint_in_text (codes "{\"multiply\":5}") ≡ [] }
{}
