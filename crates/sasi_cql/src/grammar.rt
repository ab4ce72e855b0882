// The laws of the grammar.
ghost use Rattle.std.specs.Prelude.{◌≡◌, ℕ, List};
ghost use Rattle.sasi_types.specs.declared.statement.Statement.{Statement};
ghost use Rattle.sasi_model.specs.Tokens.{Token};
ghost use Rattle.sasi_model.specs.Forms.{Spells};
ghost use Rattle.sasi_model.specs.Faults.{IsSyntaxAt};
ghost use Rattle.sasi_model.specs.Parsers.{grammar_parser, IsParser, Parser};
ghost use Rattle.sasi_model.specs.Statements.{piece};

/// Tokens spell at most one statement, and a text has at most one offset at which it stops being one. So there is one parser.
pub fn grammar_is_parsed()
    ensures parser { IsParser grammar_parser }
    ensures alone { (parser : Parser) → IsParser parser → (text : List ℕ) → parser text ≡ grammar_parser text }
    ensures one_statement { (ts : List Token) (one other : Statement) → Spells piece one ts → Spells piece other ts → one ≡ other }
    ensures one_offset { (text : List ℕ) (one other : ℕ) → IsSyntaxAt text one → IsSyntaxAt text other → one ≡ other }
{}
