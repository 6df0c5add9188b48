// What `--help` says.
use std::io;

const TEXT: &str = "Usage: cut_figure [--svg] [FILE]

Cuts a figure into triangles, as the constrained Delaunay triangulation of its points and lines.

The figure is read from FILE, or from standard input if no file is named. It is text, decimal numbers with white space
between them: n, m, then the 2n coordinates x y of points 0 to n - 1, then the 2m point numbers of the demanded lines,
two for each. Points 0, 1 and 2 are the base, a triangle that holds all points. A minus sign stands before its digits.
The text has at most 524288 bytes.

One line is printed: T, the count of the triangles, and 3T point numbers, three for each triangle, counterclockwise; or
0, the number of a refusal and its place. A place is the number of a point or a line, counted from 0; it is 0 where
there is none.

  2  fewer than 3 points, more than 4096, or more than 12288 lines
  4  the point has a coordinate below -8192 or above 8192
  5  the base has no area
  6  the point is outside the base
  7  the point equals one with a lower number
  8  the line has an end that is no point, or equal ends
  9  a point lies strictly inside the line
 10  the line crosses one with a lower number
 11  the recovery of the line sticks

Refusals 1 and 3, of odd lists and of short room, cannot arise from a text.

A text that is no figure gets a message on standard error, which says what is wrong and where, and no line.

  --svg   print a picture of the sheet instead of the line: the triangles, the demanded lines heavier, and the points
          with their numbers, in the figure's own coordinates with y upwards; a refusal is a message then
  --help  print this
";

pub fn print(rt: &impl Print) -> io::Result<()> {
    rt.print(TEXT)
}
