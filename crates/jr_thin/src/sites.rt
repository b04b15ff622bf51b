// What each token of a class is to the names of its locals and parameters.
use jr_base::Text;

/// What a token is: no name of a local or parameter, the declaration of one, or a use.
#[derive(Clone, Copy, Debug, PartialEq, Eq)]
pub enum Role {
    Plain,
    Param,
    Local,
    Use,
}

/// A token as a place of a name: the method by its number in the class, and the node of the declaration or the use
/// by its number in preorder. Where the token is no name, all is zero and empty.
#[derive(Debug, Drop)]
pub struct Site {
    pub role: Role,
    pub method: u32,
    pub node: u32,
    pub text: Text,
}
