// The theorem of specs/Rendering.antt on texts that two answers share, carried by the contract of a function that does nothing.
ghost use Rattle.answers.specs.Rendering.{ReadOneWay};

// No text is a rendering of two answers.
pub fn answers_read_one_way()
    ensures one_answer_a_text { ReadOneWay }
{}
