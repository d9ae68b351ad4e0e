//! Laws of the two orders and the two numbers: empty functions, whose contracts are theorems about the definitions of
//! specs/.
ghost use Rattle.st_order.specs.Laws.{NumberingsLaw, OrdersLaw, ReachingLaw};
ghost use Rattle.st_order.specs.Numbers.{OrderNumbersLaw};

/// 'Before or left of' and 'before or right of' are strict total orders of all vertices and edges, and what is left of
/// something that is left of a third is left of the third.
pub fn orders()
    ensures { OrdersLaw }
{}

/// Both numbers are numberings: each vertex has one, and they are all numbers from 0 to one less than the number of vertices,
/// each of one vertex.
pub fn numberings()
    ensures { NumberingsLaw }
{}

/// One vertex reaches another exactly where both its numbers are at most the other's.
pub fn reaching()
    ensures { ReachingLaw }
{}

/// There are functions that give each vertex its two numbers, and functions that give the vertex of each number X and of
/// each number Y.
pub fn numbers_exist()
    ensures { OrderNumbersLaw }
{}
