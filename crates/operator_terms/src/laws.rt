//! What is proved of operator expressions, from the grammar to the theorem.
//!
//! Each law is the contract of a function that does nothing. A crate above uses one by calling the
//! function, which costs nothing, or by naming its lemma in a proof.
ghost use Rattle.std.specs.Prelude.{◌≡◌, ◌≤◌, ◌↔◌, ◌++◌, ◌∷◌, ℕ, List, Bool, true, false, Some, IfSome, IfNone, [], codes};
ghost use Rattle.syntax_kind.specs.declared.syntax_kind.token_kind.TokenKind.TheVariants as token;
ghost use Rattle.operator_terms.specs.AllFit.{all_fit};
ghost use Rattle.operator_terms.specs.Headline.{IsOneReading, AsksNowhere, FindsNeedless, has_as};
ghost use Rattle.operator_terms.specs.Pairs.{fits_before, pair_unless, paired_before, paired, without};
ghost use Rattle.operator_terms.specs.Places.{Demand, Callee, Part, some_part, part, operand, behind_part, tokens_behind, ends_in_cast, FitsPlace, Fits, MayStandBefore};
ghost use Rattle.operator_terms.specs.Powers.{needs_pair_at};
ghost use Rattle.operator_terms.specs.Put.{put};
ghost use Rattle.operator_terms.specs.Precedence.{precedence, needs_parentheses_in};
ghost use Rattle.operator_terms.specs.Reading.{begins_with_angle, Reads};
ghost use Rattle.operator_terms.specs.Sign.{Sign, Strange, sign_of, token_of, CarriesFixedText};
ghost use Rattle.operator_terms.specs.Term.{Term, Terms, Last, Paren, Field, Method, Call, level, is_field, tokens};
ghost use Rattle.operator_terms.specs.Token.{Token, fixed};
ghost use Rattle.operator_terms.specs.Notation.{a, b, c, x, less, dot_f, calling};
ghost use Rattle.operator_terms.specs.WorkedPairs.{IsRightPair, pairs, IsRightChange, changes};
ghost use Rattle.operator_terms.specs.WorkedPlaces.{IsRightAt, strong_places, sides, IsRightIn, precedences};
ghost use Rattle.operator_terms.specs.WorkedTokens.{HasTokens, binary_tokens, literal_tokens, other_tokens};
ghost use Rattle.operator_terms.specs.WorkedTerms.{EachRow, IsRight, grouping, ranges, prefixes, postfixes, casts};

// ---- reading

/// If tokens read as a term, at any level, they are the term's tokens.
pub fn reads_its_tokens()
    ensures { (k : ℕ) (ts : List Token) (t : Term) → Reads k ts t → ts ≡ tokens t }
{}

/// One reading: two terms that read the same tokens, at whatever levels, are equal.
///
/// This covers open ranges, the operators `-`, `*` and `&` that are both prefix and binary, and a
/// called field against a method call.
pub fn one_reading()
    ensures { (j k : ℕ) (ts : List Token) (t u : Term) → Reads j ts t → Reads k ts u → t ≡ u }
{}

/// A term's tokens read as the term exactly where every operand fits its place; and where a level
/// is wanted, exactly where the term has that level too.
pub fn reads_where_all_fit()
    ensures anywhere { (t : Term) → Reads 0 (tokens t) t ↔ ((q : List ℕ) → Fits t q) }
    ensures at_level { (k : ℕ) (t : Term)
        → Reads k (tokens t) t ↔ ((k ≤ level t) × ((q : List ℕ) → Fits t q)) }
{}

/// The tokens of an operand are consecutive in those of the whole term, and followed by
/// `tokens_behind`.
pub fn tokens_of_an_operand()
    ensures { (t : Term) (q : List ℕ) (d : Demand) (e : Term) → operand t q ≡ some_part d e
        → (before : List Token) × (tokens t ≡ before ++ (tokens e ++ tokens_behind q t)) }
{}

/// A part of the operand at a place is the operand one step further down; after it are first the
/// tokens of its own form, and then those after the form.
pub fn operands_of_operands()
    ensures operand { (t : Term) (q : List ℕ) (i : ℕ) (holder held : Part)
        → operand t q ≡ Some holder → part holder.term i ≡ Some held
        → operand t (q ++ (i ∷ [])) ≡ Some held }
    ensures behind { (t : Term) (q : List ℕ) (i : ℕ) (holder held : Part)
        → operand t q ≡ Some holder → part holder.term i ≡ Some held
        → tokens_behind (q ++ (i ∷ [])) t ≡ behind_part holder.term i ++ tokens_behind q t }
{}

/// The test `all_fit` decides whether every operand fits.
pub fn all_fit_decides()
    ensures { (t : Term) → all_fit t ≡ true ↔ ((q : List ℕ) → Fits t q) }
{}

/// The call of a field has the tokens of a method call. So the first never reads.
pub fn a_called_field_is_a_method_call()
    ensures tokens { (e : Term) (name : List ℕ) (args : Terms)
        → tokens (Call (Field e name) args) ≡ tokens (Method e name args) }
    ensures unread { (e : Term) (name : List ℕ) (args : Terms) (k : ℕ) (ts : List Token)
        → Reads k ts (Call (Field e name) args) → ⊥ }
{}

/// A token and its sign: a sign that isn't `Strange` has one token, whose sign it is; and a token
/// whose sign has a token is that token, if it carries the text that its kind fixes.
pub fn a_sign_is_its_token()
    ensures sign { (s : Sign) → IfSome (token_of s) (λ t. sign_of t.kind t.text ≡ s) }
    ensures strange { (s : Sign) → IfNone (token_of s) (s ≡ Strange) }
    ensures token { (t : Token) → CarriesFixedText t.kind t.text
        → IfSome (token_of (sign_of t.kind t.text)) (λ u. u ≡ t) }
{}

// ---- pairs

/// With a pair round each operand that doesn't fit, the tokens always read as the term.
pub fn paired_reads()
    ensures { (t : Term) → Reads 0 (tokens (paired t)) (paired t) }
{}

/// Where every operand fits, no pair is put in, and only there.
pub fn paired_keeps_what_reads()
    ensures { (t : Term) → paired t ≡ t ↔ Reads 0 (tokens t) t }
{}

/// Pairs are where they must and nowhere else.
///
/// `test`: the test that decides where they are put is whether an operand fits. `parts`: a part of
/// the paired term is the paired part, in a pair unless it fits before the tokens that follow it.
pub fn pairs_where_unfit()
    ensures test { (d : Demand) (angle : Bool) (e : Term)
        → fits_before d angle e ≡ true ↔ FitsPlace d angle e }
    ensures parts { (following : List Token) (t : Term) (i : ℕ) (d : Demand) (e : Term)
        → part t i ≡ some_part d e
        → part (paired_before (begins_with_angle following) t) i
        ≡ some_part d
        (pair_unless (fits_before d (begins_with_angle (behind_part t i ++ following)) e)
        (paired_before (begins_with_angle (behind_part t i ++ following)) e)) }
{}

/// Without a pair exactly its two tokens are gone.
pub fn tokens_without_a_pair()
    ensures { (t : Term) (q : List ℕ) (d : Demand) (e : Term) → operand t q ≡ some_part d (Paren e)
        → (before : List Token)
        × (tokens t
        ≡ before
        ++ (fixed token.L_PAREN
        ∷ (tokens e ++ (fixed token.R_PAREN ∷ tokens_behind q t))))
        × (tokens (without q t) ≡ before ++ (tokens e ++ tokens_behind q t)) }
{}

/// In a term that its tokens read as, a pair may go exactly if its contents fit the pair's
/// place: then the tokens without the pair read as the term without it.
pub fn pair_may_go()
    ensures { (t : Term) (q : List ℕ) (d : Demand) (e : Term)
        → Reads 0 (tokens t) t → operand t q ≡ some_part d (Paren e)
        → FitsPlace d (begins_with_angle (tokens_behind q t)) e
        ↔ Reads 0 (tokens (without q t)) (without q t) }
{}

/// A term in the place of an operand of a term that its tokens read as.
///
/// `alone`: the whole reads as itself exactly if the new term fits the place. `in_pair`: with a
/// pair round the new term it always does.
pub fn a_term_in_the_place_of_an_operand()
    ensures alone { (t s : Term) (q : List ℕ) (d : Demand) (e : Term)
        → Reads 0 (tokens t) t → Reads 0 (tokens s) s → operand t q ≡ some_part d e
        → FitsPlace d (begins_with_angle (tokens_behind q t)) s
        ↔ Reads 0 (tokens (put s q t)) (put s q t) }
    ensures in_pair { (t s : Term) (q : List ℕ) (d : Demand) (e : Term)
        → Reads 0 (tokens t) t → Reads 0 (tokens s) s → operand t q ≡ some_part d e
        → Reads 0 (tokens (put (Paren s) q t)) (put (Paren s) q t) }
{}

// ---- the tests

/// The test by binding powers requires a pair exactly if an operand doesn't fit.
///
/// It holds for any term `own` in place of any part, followed by `<` or `<<` (`angle`) or not.
pub fn powers_ask_where_unfit()
    ensures { (t : Term) (i : ℕ) (d : Demand) (e own : Term) (angle : Bool)
        → part t i ≡ some_part d e
        → needs_pair_at t i angle own ≡ false ↔ FitsPlace d angle own }
{}

/// If the test by precedences requires no parentheses, the test by binding powers requires none.
///
/// The exceptions are a field that is called, and an operand that ends in a cast's name before `<`
/// or `<<`.
pub fn precedences_ask_enough()
    ensures { (t : Term) (i : ℕ) (d : Demand) (e : Term) (angle : Bool)
        → part t i ≡ some_part d e
        → needs_parentheses_in (precedence e) (precedence t) ≡ false
        → (d ≡ Callee → is_field e ≡ false)
        → (ends_in_cast (tokens e) ≡ true → angle ≡ false)
        → needs_pair_at t i angle e ≡ false }
{}

// ---- the theorem

/// The operator theorem, over terms.
///
/// `readings`: a term is the one reading of its tokens exactly if the test by binding powers
/// requires a pair at no operand. `pairs`: in such a term, the test requires none for the contents
/// of a pair exactly if the tokens without the pair read as the term without it.
///
/// The term may precede any tokens, `following`; where it, or it without the pair, ends in a
/// cast's name, these must not begin with `<` or `<<`.
pub fn the_operator_theorem()
    ensures readings { (following : List Token) (t : Term)
        → MayStandBefore following t → IsOneReading t ↔ AsksNowhere following t }
    ensures pairs { (following : List Token) (t : Term)
        → MayStandBefore following t → IsOneReading t → FindsNeedless following t }
{}

/// A term without casts may precede any tokens, and without a pair it still has no casts. So for
/// such a term the theorem makes no assumption about the tokens that follow.
pub fn without_casts_all_may_follow()
    ensures stands { (following : List Token) (t : Term)
        → has_as (tokens t) ≡ false → MayStandBefore following t }
    ensures without_a_pair { (t : Term) (q : List ℕ) (d : Demand) (e : Term)
        → operand t q ≡ some_part d (Paren e)
        → has_as (tokens t) ≡ false → has_as (tokens (without q t)) ≡ false }
{}

// ---- worked terms

/// Worked terms: for each row of the tables, `all_fit` has the result that the row states.
///
/// For two terms it is also stated by the grammar: `a < b < c` doesn't read as a comparison of a
/// comparison, and the tokens of a call over the field `a.f` read as the method call.
pub fn worked_terms()
    ensures grouping { EachRow IsRight grouping }
    ensures ranges { EachRow IsRight ranges }
    ensures prefixes { EachRow IsRight prefixes }
    ensures postfixes { EachRow IsRight postfixes }
    ensures casts { EachRow IsRight casts }
    ensures no_chain { (k : ℕ) → Reads k (tokens (less (less a b) c)) (less (less a b) c) → ⊥ }
    ensures method { Reads 0 (tokens (calling (dot_f a) x)) (Method a (codes "f") (Last x)) }
{}

/// Worked tokens: the kinds and the texts of the tokens of terms, with each operator, each literal
/// kind and each form once.
pub fn worked_tokens()
    ensures binary { EachRow HasTokens binary_tokens }
    ensures literals { EachRow HasTokens literal_tokens }
    ensures others { EachRow HasTokens other_tokens }
{}

/// For each place of an operand, with one operator of each level, and samples of all forms: which
/// of them the test by binding powers accepts without parentheses, and for which it requires a
/// pair. Also the result of the test by precedences.
pub fn worked_places()
    ensures strong { EachRow IsRightAt strong_places }
    ensures sides { EachRow IsRightAt sides }
    ensures precedences { EachRow IsRightIn precedences }
{}

/// Worked pairs: which may go, by the test and by the reading without them; and which are put in
/// round operands that don't fit.
pub fn worked_pairs()
    ensures pairs { EachRow IsRightPair pairs }
    ensures changes { EachRow IsRightChange changes }
{}
