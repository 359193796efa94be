// The theorems on clause text. Each function carries one in its contract.
ghost use Rattle.view.specs.Format.{SaysOnce, WrittenSays};

// A text says one V and one list of clauses.
pub fn says_once()
    ensures texts_say_one_thing { SaysOnce }
{}

// A head line and the lines of clauses say those clauses.
pub fn written_says()
    ensures written_clauses_are_said { WrittenSays }
{}
