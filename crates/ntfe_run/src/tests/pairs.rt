//! Pairs whose values are known, as text.

/// The five points of a simplex.
pub const SIMPLEX: &str = "\
vertices 5\n\
1 0 0 0\n\
0 1 0 0\n\
0 0 1 0\n\
0 0 0 1\n\
-1 -1 -1 -1\n\
dual 5\n\
-1 -1 -1 -1\n\
4 -1 -1 -1\n\
-1 4 -1 -1\n\
-1 -1 4 -1\n\
-1 -1 -1 4\n";

/// Seven vertices; one two-face is a square of side 1, the others are triangles.
pub const PYRAMID: &str = "\
vertices 7\n\
1 0 0 0\n\
0 1 0 0\n\
1 0 1 0\n\
0 1 1 0\n\
-1 -1 -1 0\n\
0 0 0 1\n\
0 0 0 -1\n\
dual 10\n\
-1 -1 0 1\n\
-1 -1 0 -1\n\
-1 -1 3 1\n\
-1 -1 3 -1\n\
2 2 -3 1\n\
2 2 -3 -1\n\
-1 2 0 1\n\
-1 2 0 -1\n\
2 -1 0 1\n\
2 -1 0 -1\n";

/// The free sum of two squares of side 2.
pub const SQUARES: &str = "\
vertices 8\n\
-1 -1 0 0\n\
-1 1 0 0\n\
1 -1 0 0\n\
1 1 0 0\n\
0 0 -1 -1\n\
0 0 -1 1\n\
0 0 1 -1\n\
0 0 1 1\n\
dual 16\n\
-1 0 -1 0\n\
-1 0 0 -1\n\
-1 0 0 1\n\
-1 0 1 0\n\
0 -1 -1 0\n\
0 -1 0 -1\n\
0 -1 0 1\n\
0 -1 1 0\n\
0 1 -1 0\n\
0 1 0 -1\n\
0 1 0 1\n\
0 1 1 0\n\
1 0 -1 0\n\
1 0 0 -1\n\
1 0 0 1\n\
1 0 1 0\n";

/// The product of two triangles.
pub const TT: &str = "\
vertices 9\n\
1 0 1 0\n\
1 0 0 1\n\
1 0 -1 -1\n\
0 1 1 0\n\
0 1 0 1\n\
0 1 -1 -1\n\
-1 -1 1 0\n\
-1 -1 0 1\n\
-1 -1 -1 -1\n\
dual 6\n\
-1 -1 0 0\n\
2 -1 0 0\n\
-1 2 0 0\n\
0 0 -1 -1\n\
0 0 2 -1\n\
0 0 -1 2\n";

/// The cube of side 2, dual of the cross polytope.
pub const CUBE: &str = "\
vertices 16\n\
-1 -1 -1 -1\n\
-1 -1 -1 1\n\
-1 -1 1 -1\n\
-1 -1 1 1\n\
-1 1 -1 -1\n\
-1 1 -1 1\n\
-1 1 1 -1\n\
-1 1 1 1\n\
1 -1 -1 -1\n\
1 -1 -1 1\n\
1 -1 1 -1\n\
1 -1 1 1\n\
1 1 -1 -1\n\
1 1 -1 1\n\
1 1 1 -1\n\
1 1 1 1\n\
dual 8\n\
1 0 0 0\n\
-1 0 0 0\n\
0 1 0 0\n\
0 -1 0 0\n\
0 0 1 0\n\
0 0 -1 0\n\
0 0 0 1\n\
0 0 0 -1\n";

/// The product of a square of side 2 and a triangle.
pub const BOX_T: &str = "\
vertices 12\n\
-1 -1 1 0\n\
-1 -1 0 1\n\
-1 -1 -1 -1\n\
-1 1 1 0\n\
-1 1 0 1\n\
-1 1 -1 -1\n\
1 -1 1 0\n\
1 -1 0 1\n\
1 -1 -1 -1\n\
1 1 1 0\n\
1 1 0 1\n\
1 1 -1 -1\n\
dual 7\n\
-1 0 0 0\n\
0 -1 0 0\n\
0 1 0 0\n\
1 0 0 0\n\
0 0 -1 -1\n\
0 0 2 -1\n\
0 0 -1 2\n";

/// A tetrahedron with two apexes; its first two-face is a triangle of side 2.
pub const TETRA: &str = "\
vertices 6\n\
1 1 1 0\n\
1 -1 -1 0\n\
-1 1 -1 0\n\
-1 -1 1 0\n\
0 0 0 1\n\
0 0 0 -1\n\
dual 8\n\
-1 -1 1 1\n\
-1 -1 1 -1\n\
-1 1 -1 1\n\
-1 1 -1 -1\n\
1 -1 -1 1\n\
1 -1 -1 -1\n\
1 1 1 1\n\
1 1 1 -1\n";

/// The product of two triangles of side 3.
pub const DUAL_TT: &str = "\
vertices 9\n\
-1 -1 -1 -1\n\
-1 -1 2 -1\n\
-1 -1 -1 2\n\
2 -1 -1 -1\n\
2 -1 2 -1\n\
2 -1 -1 2\n\
-1 2 -1 -1\n\
-1 2 2 -1\n\
-1 2 -1 2\n\
dual 6\n\
1 0 0 0\n\
0 1 0 0\n\
-1 -1 0 0\n\
0 0 1 0\n\
0 0 0 1\n\
0 0 -1 -1\n";
