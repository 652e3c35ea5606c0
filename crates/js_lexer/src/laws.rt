ghost use Rattle.js_lexer.specs.Laws.{OneToken, Longest, CommentsOfToken, CommentsStart};

/// At one place of a text one token at most stands for a goal, and the punctuator that stands there is
/// the longest.
pub fn one_token()
    ensures one { OneToken }
    ensures longest { Longest }
{}

/// What `comments` gives for a token's comments is what stands before that token; and its condition
/// holds of them.
pub fn comments_of_tokens()
    ensures same { CommentsOfToken }
    ensures start { CommentsStart }
{}
